//! A JSON object that is built member by member.

use gb_findings::gb_fixpoint::Val;
use serde_json::{Map, Value, json};
use std::alloc::{AllocError, Global};
use std::fmt;

/// An object that isn't whole yet.
#[derive(Drop)]
pub struct JsonObject {
    pub alloc: Global,
    members: Map<String, Value>,
}

impl JsonObject {
    /// No member yet.
    pub fn new(alloc: Global) -> JsonObject {
        JsonObject {
            alloc,
            members: Map::new(alloc),
        }
    }

    /// One more member.
    pub fn put(&mut self, name: &str, value: Value) -> Result<(), AllocError> {
        let name = String::from_str(self.alloc, name)?;
        drop(self.members.insert(name, value)?);
        Ok(())
    }

    /// A number.
    pub fn put_number(&mut self, name: &str, number: u64) -> Result<(), AllocError> {
        self.put(name, Value::from(number))
    }

    /// An address.
    pub fn put_address(&mut self, name: &str, address: u16) -> Result<(), AllocError> {
        self.put_number(name, u64::from(address))
    }

    /// Whether something is so.
    pub fn put_flag(&mut self, name: &str, flag: bool) -> Result<(), AllocError> {
        self.put(name, Value::from(flag))
    }

    /// A text.
    pub fn put_text(&mut self, name: &str, text: &str) -> Result<(), AllocError> {
        let text = Value::try_from_str(self.alloc, text)?;
        self.put(name, text)
    }

    /// A text, as something prints itself.
    pub fn put_shown<T: fmt::Display>(&mut self, name: &str, shown: &T) -> Result<(), AllocError> {
        let alloc = self.alloc;
        let text = format!(in alloc; "{shown}")?;
        self.put(name, Value::String(text))
    }

    /// A list of two numbers.
    pub fn put_pair(&mut self, name: &str, first: u64, last: u64) -> Result<(), AllocError> {
        let list = pair(self.alloc, first, last)?;
        self.put(name, list)
    }

    /// A value's least and greatest byte.
    pub fn put_val(&mut self, name: &str, val: Val) -> Result<(), AllocError> {
        self.put_pair(name, u64::from(val.lo), u64::from(val.hi))
    }

    /// A list of addresses.
    pub fn put_addresses(&mut self, name: &str, addresses: &[u16]) -> Result<(), AllocError> {
        let list = list_of(self.alloc, addresses)?;
        self.put(name, list)
    }

    /// The whole object.
    pub fn finish(self) -> Value {
        let JsonObject { members, .. } = self;
        Value::Object(members)
    }
}

/// A list of two numbers.
pub(crate) fn pair(alloc: Global, first: u64, last: u64) -> Result<Value, AllocError> {
    json!(in alloc; [first, last])
}

/// A list of addresses.
fn list_of(alloc: Global, addresses: &[u16]) -> Result<Value, AllocError> {
    let mut values = Vec::new(alloc);
    for address in addresses {
        values.push(Value::from(u64::from(*address)))?;
    }
    Ok(Value::Array(values))
}
