/// Where a number that is counted stands among those counted before.
#[derive(Debug, Clone, Copy, PartialEq, Eq)]
pub enum Place {
    /// It is the first number that the window counts.
    Only,
    /// It is above all of them.
    Newest,
    /// It is between the least and the greatest of them.
    Inside,
    /// It is below all of them.
    Least,
}

/// What a window answers to a mark.
#[derive(Debug, Clone, Copy, PartialEq, Eq)]
pub enum Entered {
    /// The mark is the first of its number, the integer that it stands for, which is counted now.
    First { place: Place, number: i128 },
    /// The number was counted before.
    Repeat,
    /// The number is at most the greatest counted one less the width, so nothing is known of it any more.
    Late,
}
