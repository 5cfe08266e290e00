// An entry of a line's request list. The instance wanted lies in the want row, at the same place.
use packets::ids::Name;
use places::count::SendCount;

#[derive(Clone, Copy)]
pub struct Want {
    pub line: usize,
    pub name: Name,
    pub count: SendCount,
}
