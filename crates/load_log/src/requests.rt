// What a load asks for, in words as they are handed out (docs/FORMS.md, 'Words' and 'Ancestors requests out').
ghost use Rattle.std.specs.Prelude.{◌≤◌, ◌<◌, length};

use crate::line::write_headed;
use ancestors::AncestorsRequest;
use files::{Failure, To};

// Where an ancestors request stands: its entity, and where the ids that it asks for end.
#[derive(Drop)]
pub struct RequestPlace {
    pub id: u64,
    pub end: usize,
}

impl RequestPlace {
    // The request with a number, whose ids begin at a place.
    pub fn at(requests: &[u64], i: usize, from: usize) -> RequestPlace
        requires { (i < 4096) × (4097 ≤ length requests.now) × (from ≤ length requests.now) }
        ensures { (result.id ≤ 65535) × (from ≤ result.end) × (result.end ≤ length requests.now) }
    {
        let head = AncestorsRequest::of(requests[1 + i]);
        RequestPlace {
            id: head.id,
            end: from + head.count.min(requests.len() - from),
        }
    }
}

// How many ancestors requests there are.
pub fn count_of(requests: &[u64]) -> usize
    requires { 4097 ≤ length requests.now }
    ensures { result ≤ 4096 }
{
    let count = requests[0];
    if 4_096 < count {
        return 0;
    }
    count as usize
}

// Writes all ancestors requests: each its entity, and the ids that it asks for.
pub fn write_requests(to: To, requests: &[u64]) -> Result<(), Failure>
    requires { 4097 ≤ length requests.now }
{
    let count = count_of(requests);
    let mut from = 1 + count;
    for i in 0..count {
        let request = RequestPlace::at(requests, i, from);
        let end = request.end;
        write_headed(to, b'K', request.id, &requests[from..end])?;
        from = end;
    }
    Ok(())
}
