// An entity looked up in a slice that stands in words: heads, each with parents and rows behind it.
ghost use Rattle.rules.specs.Loading.{loaded_as};
ghost use Rattle.ancestors.specs.SliceWords.{slice_in, FoundAs};

use answers::Head;

// The rows of an entity's attributes, if it is loaded.
pub fn find_loaded(slice: &[u64], id: u64) -> Option<&[u64]>
    ensures { FoundAs (loaded_as id (slice_in slice.now)) result }
{
    let room = slice.len() as u64;
    let mut at = 0;
    while at < slice.len() {
        let head = Head::from(slice[at]);
        let start = (at as u64 + 1 + head.parents as u64).min(room);
        let end = (start + head.rows as u64).min(room);
        if head.flag == id {
            return Some(&slice[start as usize..end as usize]);
        }
        at = end as usize;
    }
    None
}
