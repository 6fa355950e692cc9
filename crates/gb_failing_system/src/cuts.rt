//! The worked examples whose files end early, or fail.

use crate::device::{Pace, StreamEnding};
use crate::rows::{
    ALL, Content, Cuts, DEVICE, ExpectedOutput, FAILING, FilePlace, Given, MEMORY, NO_ROOM, RUN,
    SHOW, Scenario, VERIFY, VERIFY_INPUT,
};

pub const CUTS: &[Cuts] = &[
    Cuts {
        row: Scenario {
            about: "a cartridge that goes on in zeros without an end",
            game: Given::Read(Content::Cartridge, ALL, Pace::Whole, StreamEnding::Zeros),
            written: ExpectedOutput::Text("CARTRIDGE H4\n"),
            status: 2,
            ..VERIFY
        },
        place: FilePlace::Game,
        most: 32_768,
        step: 16_384,
    },
    Cuts {
        row: Scenario {
            game: Given::Read(Content::Cartridge, ALL, Pace::Whole, FAILING),
            about: "a cartridge that fails",
            written: DEVICE,
            status: 3,
            told: "game.gb",
            ..VERIFY
        },
        place: FilePlace::Game,
        most: 32_768,
        step: 1_024,
    },
    Cuts {
        row: Scenario {
            game: Given::Read(Content::Cartridge, ALL, Pace::Whole, NO_ROOM),
            about: "a cartridge without room",
            written: MEMORY,
            status: 3,
            told: "game.gb",
            ..RUN
        },
        place: FilePlace::Game,
        most: 32_768,
        step: 1_024,
    },
    Cuts {
        row: Scenario {
            cert: Given::Read(Content::Certificate, ALL, Pace::Whole, FAILING),
            about: "a certificate that fails",
            written: DEVICE,
            status: 3,
            told: "game.cert",
            ..VERIFY
        },
        place: FilePlace::Cert,
        most: 159,
        step: 1,
    },
    Cuts {
        row: Scenario {
            cert: Given::Read(Content::Certificate, ALL, Pace::Whole, NO_ROOM),
            about: "a certificate without room",
            written: MEMORY,
            status: 3,
            told: "game.cert",
            ..SHOW
        },
        place: FilePlace::Cert,
        most: 159,
        step: 1,
    },
    Cuts {
        row: Scenario {
            keys: Given::Read(Content::Cartridge, ALL, Pace::Whole, FAILING),
            about: "a script that fails before its frames' end",
            written: DEVICE,
            status: 3,
            told: "game.keys",
            ..RUN
        },
        place: FilePlace::Keys,
        most: 1,
        step: 1,
    },
    Cuts {
        row: Scenario {
            input: Given::Read(Content::Cartridge, ALL, Pace::Whole, FAILING),
            about: "standard input that fails",
            written: DEVICE,
            status: 3,
            told: "standard input",
            ..VERIFY_INPUT
        },
        place: FilePlace::Input,
        most: 32_768,
        step: 1_024,
    },
];
