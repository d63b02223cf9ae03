// How orders, openings and answers are printed.
ghost use Rattle.std.specs.Prelude.{Some, decimal};
ghost use Rattle.meaning.specs.Numbers.{number_of};
ghost use Rattle.meaning.specs.Printed.{fate_text, opening_text, order_text};

use crate::fate::Fate;
use crate::opening::Opening;
use crate::order::{Action, Order};
use crate::refusal::Refusal;
use std::error::Error;
use std::fmt;

impl fmt::Display for Order {
    ghost output = { λ order. Some (order_text order) };

    fn fmt<W: fmt::Write>(&self, f: &mut fmt::Formatter<W>) -> fmt::Result {
        let number = self.number;
        match self.action {
            Action::Transfer {
                debit,
                credit,
                amount,
            } => write!(f, "transfer {number}: {amount} from {debit} to {credit}")?,
            Action::Reserve {
                debit,
                credit,
                amount,
                duration,
            } => write!(
                f,
                "reserve {number}: {amount} from {debit} to {credit} for {duration} s"
            )?,
            Action::Post {
                reservation,
                amount,
            } => write!(f, "post {number}: {amount} of {reservation}")?,
            Action::Void { reservation } => write!(f, "void {number}: {reservation}")?,
        }
        if self.linked {
            write!(f, ", linked")
        } else {
            Ok(())
        }
    }
}

impl fmt::Display for Opening {
    ghost output = { λ opening. Some (opening_text opening) };

    fn fmt<W: fmt::Write>(&self, f: &mut fmt::Formatter<W>) -> fmt::Result {
        let number = self.number;
        let ledger = self.ledger;
        let class = self.class;
        let limit = self.limit;
        write!(
            f,
            "open {number}: ledger {ledger}, class {class}, limit {limit}, label "
        )?;
        for byte in self.label.to_be_bytes() {
            if byte != b' ' {
                let letter = char::from(byte);
                write!(f, "{letter}")?;
            }
        }
        Ok(())
    }
}

// The refusal's number.
impl fmt::Display for Refusal {
    ghost output = { λ r. Some (decimal (number_of r)) };

    fn fmt<W: fmt::Write>(&self, f: &mut fmt::Formatter<W>) -> fmt::Result {
        write!(f, "{}", self.number())
    }
}

impl Error for Refusal {}

impl fmt::Display for Fate {
    ghost output = { λ fate. Some (fate_text fate) };

    fn fmt<W: fmt::Write>(&self, f: &mut fmt::Formatter<W>) -> fmt::Result {
        let word = match *self {
            Fate::Live => "live",
            Fate::Posted => "posted",
            Fate::Voided => "voided",
            Fate::Lapsed => "lapsed",
        };
        write!(f, "{word}")
    }
}
