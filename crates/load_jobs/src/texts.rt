// The texts of a load, each read once.
ghost use Rattle.std.specs.Prelude.{◌<◌, length};

use files::{CommandLine, Failure};
use forms::Form;
use jobs::read;
use load_answers::Store;
use value_text::Request;

// The words of a context.
pub const CONTEXT: usize = 8_193;

// Reads the request that word 3 names, its context into words.
pub fn read_request(line: CommandLine, context: &mut [u64]) -> Result<Request, Failure> {
    read(line, 3, Form::Request, |text| {
        value_text::read_request(text, context)
    })
}

// Reads the store that word i names.
fn read_store(line: CommandLine, i: usize, store: &mut [u64]) -> Result<(), Failure> {
    read(line, i, Form::Store, |text| {
        store_text::read_store(text, store)
    })
}

// Reads the stores that the words from 4 on name.
pub fn read_stores(line: CommandLine, stores: &mut [Store]) -> Result<(), Failure>
    requires { length stores.old < 16 }
{
    for i in 0..stores.len() {
        read_store(line, i + 4, &mut stores[i])?;
    }
    Ok(())
}
