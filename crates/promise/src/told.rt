// What a call is told, as a value.
ghost use Rattle.std.specs.Prelude.{◌≡◌};
ghost use Rattle.std.specs.Option.{option_map};
ghost use Rattle.meaning.specs.Rows.{standing_of};

use meaning::{Account, Moved, Reading, Refusal, Reservation, Standing};

// What each call answers; nothing where none was made, as on a new desk.
#[derive(Clone, Copy)]
pub enum Told {
    Nothing,
    Opened(Result<(), Refusal>),
    Ran(Result<usize, Refusal>),
    Moved(Result<Moved, Refusal>),
    Reported(Result<usize, Refusal>),
    Account(Option<Standing>),
    Reservation(Option<Reservation>),
    Moment(u64),
    Reading(Reading),
}

// How an account stands, where there is one.
pub(crate) fn state_account(account: Option<Account>) -> Option<Standing>
    ensures { result ≡ option_map standing_of account }
{
    account.map(Standing::from)
}
