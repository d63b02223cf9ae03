// Why a script can't be run, or not to its end.

#[derive(Clone, Copy, Debug, PartialEq, Eq)]
pub enum Bad {
    // The version is another one, or the head is cut.
    Head = 1,
    Journal = 2,
    Policy = 3,
    // The script ends inside a call.
    Cut = 4,
    Call = 5,
    Order = 6,
    // A list longer than allowed.
    List = 7,
    // The output is too short.
    Output = 8,
}
