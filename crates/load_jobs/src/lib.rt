// The job that tries a load: a manifest, a request, and one store or several copies of it, which answer in turn.
#![tactic(auto)]

mod running;
mod telling;
mod texts;

ghost use Rattle.std.specs.Prelude.{◌≤◌};

use crate::running::run;
use crate::telling::tell;
use crate::texts::{CONTEXT, read_request, read_stores};
use files::{CommandLine, Failure};
use jobs::{WORDS, load_listing};
use load_answers::STORE;
pub use load_answers::STORES;

// `load MANIFEST REQUEST STORE...`: runs a load against the stores, and writes its log.
pub fn load(line: CommandLine) -> Result<(), Failure>
    requires { (5 ≤ line.count) × (line.count ≤ 12) }
{
    let mut manifest = [0u64; WORDS];
    load_listing(line, 2, &mut manifest)?;
    let mut context = [0u64; CONTEXT];
    let asked = read_request(line, &mut context)?;
    let mut room = [[0u64; STORE]; STORES];
    let stores = &mut room[..line.count - 4];
    read_stores(line, stores)?;
    tell(line, run(line.to, asked, &manifest, &context, stores))
}
