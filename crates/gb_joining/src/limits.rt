//! The limits of the maker of certificates. None of them is asked for by a rule: what a limit cuts off is
//! told as an obstacle, or costs nodes. The first ones are of a run, then of its joins and widening, of what is told apart, of
//! refinement, and of shrinking.

/// The most nodes of a run, where nothing else is said.
pub const NODES: usize = 400_000;

/// The most nodes of the first attempts.
pub const FEW_NODES: usize = 20_000;

/// How often a node grows before no fill of a state that arrives is taken over any more.
pub const FILL_GROWTHS: u32 = 8;

/// The most procedures: a certificate of versions 1 to 3 has no more.
pub const PROCEDURES: usize = 255;

/// The most procedures of a certificate of version 4.
pub const MANY_PROCEDURES: usize = 65_535;

/// The most addresses whose bytes a procedure keeps.
pub const KEPT: usize = 16;

/// About how many procedures are saved at once where there would be more: half of them.
pub const SAVED_PROCEDURES: usize = 128;

/// How many nodes more a procedure may cost that is saved by following its calls.
pub const NODES_A_PROCEDURE: usize = 64;

/// The most steps of a run.
pub const RUN_STEPS: u64 = 60_000_000;

/// How many steps of nodes all rounds of an attempt together may take, where few nodes are allowed: no more is begun behind them.
pub const ALL_STEPS: u64 = 4_000_000;

/// The most steps of all rounds together, for each node that is allowed.
pub const STEPS_A_NODE: u64 = 200;

/// The same where so many nodes are allowed that these are more steps than `ALL_STEPS`.
pub const STEPS_A_NODE_OF_MANY: u64 = 10;

/// How many steps all rounds together take at most from the first failure on that stands for good: the others are told as they are.
pub const STEPS_STANDING: u64 = 400_000;

/// From how many steps of a run on a round is dear.
pub const DEAR_STEPS: u64 = 10_000;

/// After how many steps of a run it is asked whether it may go on.
pub const STEPS_ASKED: u64 = 16_384;

/// How many steps a run goes on at least past its first failure.
pub const STEPS_PAST: u64 = 2_000;

/// The most obstacles that are told.
pub const OBSTACLES: usize = 10;

/// How often a node grows by joins alone, by the rules of versions 1 and 2.
pub const SIMPLE_GROWTHS: u32 = 60;

/// The growths after which a loop's head or a procedure's entry is widened, by the rules of versions 1 and 2.
pub const SIMPLE_HEAD_GROWTHS: u32 = 8;

/// How often a node grows by joins alone, by the rules of version 3, by which more is known, and lost if it is widened too soon.
pub const GROWTHS: u32 = 150;

/// The growths after which a loop's head or a procedure's entry is widened, by the rules of version 3.
pub const HEAD_GROWTHS: u32 = 12;

/// How often an exit grows before it is widened.
pub const EXIT_GROWTHS: u32 = 40;

/// How often a node or an exit grows before nothing more is known of pairs.
pub const PAIR_GROWTHS: u32 = 400;

/// How often a cell is widened at a node before it goes on to what it is compared with itself.
pub const CREEPS: u8 = 4;

/// How many instructions are gone back from a comparison to the cell that it looks at.
pub const POINT_STEPS: u32 = 12;

/// The greatest factor of a link.
pub const FACTOR: u16 = 127;

/// How wide the sums of a link may be: wider ones say little.
pub const LINK_WIDTH: u16 = 3_000;

/// How wide the sums of a link with a base become where they grow again and again.
pub const BASE_WIDTHS: [u16; 3] = [15, 255, LINK_WIDTH];

/// The most values of H or D that a page is taken by.
pub const PAGES: u8 = 8;

/// The most words that tell nodes apart.
pub const WORDS: usize = 48;

/// The most bytes above the return word that a procedure takes over.
pub const ARGUMENTS: u8 = 96;

/// The most bytes of code in RAM that are wanted at once.
pub const CODE_AHEAD: u8 = 16;

/// The most nodes of an address that are compared with one another, so that those are left out that another one covers.
pub const COMPARED: usize = 400;

/// The most edits for one place and reason.
pub const EDITS: u32 = 12;

/// The most edits for one place where the pointer is kept in RAM: it would be told apart through all memory.
pub const EDITS_OF_KEPT: u32 = 6;

/// The most edits for one point of code at which a failure stood with fewer nodes.
pub const EDITS_AGAIN: u32 = 5;

/// How many runs, one after another, meet a return or a jump into what is no code before the search ends with it.
pub const WILD_RUNS: u32 = 4;

/// How many times more nodes are allowed than a run took at first where no more would help that got too large again.
pub const MULTIPLE: usize = 25;

/// How many edits that tell nothing apart are made after one run, each found by asking where its nodes would go.
pub const IDLE_EDITS: u32 = 32;

/// How many plans of an attempt are taken back with another one tried in their place, where few nodes are allowed.
pub const TAKEN_BACK: u32 = 4;

/// How often an edit is taken back where more nodes are allowed, or where a jump was led into what is no code.
pub const TAKEN_BACK_OF_MANY: u32 = 1;

/// How many nodes are gone back from what is no code to the jump that led there.
pub const STEPS_BACK: u32 = 16;

/// How many instructions a slice goes back.
pub const SLICE: u32 = 40;

/// The most instructions of a slice that goes through a loop.
pub const LONG_SLICE: u32 = 80;

/// How often what a loop computes from is sought among the registers that were found: there are seven of them.
pub const SOURCES: u32 = 7;

/// How many instructions lie at most between what makes a carry and what reads it.
pub const CARRIED: u32 = 8;

/// The most values that a register is split into, while there may be something better.
pub const FEW_VALUES: u32 = 64;

/// The most values that a slice tells apart if nothing better helps: all values of a byte.
pub const ALL_VALUES: u32 = 256;

/// The most pairs of values, where one register of two is split and the other follows.
pub const PAIRS: u32 = 1024;

/// The most values, less one, that a loop's counter is split into.
pub const COUNTER: u8 = 128;

/// The most loops around an address that are told apart.
pub const NESTING: usize = 32;

/// The most values of a register by which calls are told apart at once.
pub const CALL_VALUES: usize = 24;

/// The most different calls by which a procedure is parted.
pub const CALL_KINDS: usize = 40;

/// How many calls are gone back from a failure.
pub const CALLERS: u32 = 6;

/// How many procedures are looked at for one failure.
pub const VISITS: usize = 200;

/// How many spots are looked at on the way back to cells.
pub const SPOTS: usize = 3000;

/// About how many steps of nodes all attempts at a smaller certificate together may take.
pub const SHRINK_STEPS: u64 = 1_500_000;

/// What the check of a pair of nodes at one address may take, in steps of nodes.
pub const STEPS_A_PAIR: u64 = 16;

/// The most attempts at a smaller certificate.
pub const SHRINK_ATTEMPTS: u64 = 60;

/// How many nodes such an attempt may have beside twice as many as before.
pub const SPARE_NODES: usize = 1_000;
