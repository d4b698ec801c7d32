//! The default spellings of strings and keys.
ghost use Rattle.std.specs.Prelude.{IfErr, IfOk};
ghost use Rattle.toml_edit_c.specs.Answers.{Answers};
ghost use Rattle.toml_edit_c.specs.Spelled.{IsKeySpelling, IsStringSpelling, StopsSpelling};
ghost use Rattle.toml_edit_c.specs.Statuses.{IsStatusOf};

use crate::answer::{Answer, Stop, give};
use std::alloc::Global;
use std::str;
use toml_edit::{Key, Value};
use toml_edit_io::print;
use toml_edit_tree::Bare;

/// Gives the default spelling of the string of these characters.
#[unsafe(no_mangle)]
pub extern "C" fn toml_edit_string(alloc: Global, text: &[u8], room: &mut [u8]) -> Answer
    ensures { Answers (IsStringSpelling text.now) (IsStatusOf (StopsSpelling text.now)) result
        room.old room.new }
{
    give(string(alloc, text), room)
}

/// Gives the default spelling of the key of this name, bare where it can be.
#[unsafe(no_mangle)]
pub extern "C" fn toml_edit_key(alloc: Global, name: &[u8], room: &mut [u8]) -> Answer
    ensures { Answers (IsKeySpelling name.now) (IsStatusOf (StopsSpelling name.now)) result
        room.old room.new }
{
    give(key(alloc, name), room)
}

fn string(alloc: Global, text: &[u8]) -> Result<Vec<u8>, Stop>
    ensures made { IfOk result (λ s. IsStringSpelling text.now s.items) }
    ensures stops { IfErr result (StopsSpelling text.now) }
{
    let Ok(text) = str::from_utf8(text) else {
        return Err(Stop::NotUtf8);
    };
    let value = Value::string(alloc, text).map_err(|_| Stop::Memory)?;
    let spelled = print(alloc, &Bare(&value)).map_err(|_| Stop::Memory)?;
    Ok(spelled.into_bytes())
}

fn key(alloc: Global, name: &[u8]) -> Result<Vec<u8>, Stop>
    ensures made { IfOk result (λ s. IsKeySpelling name.now s.items) }
    ensures stops { IfErr result (StopsSpelling name.now) }
{
    let Ok(name) = str::from_utf8(name) else {
        return Err(Stop::NotUtf8);
    };
    let name = String::from_str(alloc, name).map_err(|_| Stop::Memory)?;
    let spelled = print(alloc, &Key::new(name)).map_err(|_| Stop::Memory)?;
    Ok(spelled.into_bytes())
}
