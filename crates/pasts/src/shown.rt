// What calls are told, as numbers: what a call answers, and one number of what it gives.
use meaning::{Fate, number_of};
use promise::Told;

pub fn numbers(told: &Told) -> (u8, u64) {
    match told {
        Told::Nothing => (255, 0),
        Told::Opened(answer) => (number_of(answer), 0),
        Told::Ran(answer) => (number_of(answer), answer.unwrap_or(0) as u64),
        Told::Moved(answer) => (number_of(answer), answer.map_or(0, |moved| moved.lapsed)),
        Told::Reported(answer) => (number_of(answer), answer.unwrap_or(0) as u64),
        Told::Account(account) => (0, account.map_or(0, |standing| standing.debits_posted)),
        Told::Reservation(held) => (
            0,
            held.map_or(0, |held| u64::from(held.fate == Fate::Lapsed)),
        ),
        Told::Moment(moment) => (0, *moment),
        Told::Reading(reading) => (reading.map_or_else(|stop| stop.refusal.number(), |_| 0), 0),
    }
}
