// How a scan fails: at the byte that cannot stand there, or at a bracket with no level left.
#[derive(Clone, Copy, Debug, PartialEq, Eq)]
pub enum ScanError {
    Broke(usize),
    Deep(usize),
}

// The depth count passes the limit: the place of the first bracket with which it does.
#[derive(Clone, Copy, Debug, PartialEq, Eq)]
pub struct TooDeep {
    pub place: usize,
}
