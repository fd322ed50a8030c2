/// A call of the outside failed: the count of faults of the object that was handed in rose.
#[derive(Clone, Copy, Debug, PartialEq, Eq)]
pub struct Failed;
