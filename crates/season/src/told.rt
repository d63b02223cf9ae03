// What a call is told, on a line.
use meaning::{Reading, Refusal, Reservation, Standing, number_of};
use promise::Told;
use std::io;

pub fn show_told(rt: &HostRuntime, told: &Told) -> io::Result<()> {
    match told {
        Told::Nothing => println!(rt; "nothing"),
        Told::Opened(answer) => {
            let answer = number_of(answer);
            println!(rt; "open -> {answer}")
        }
        Told::Ran(Ok(taken)) => println!(rt; "batch -> {taken} taken"),
        Told::Ran(Err(refusal)) => show_refusal(rt, "batch", *refusal),
        Told::Moved(Ok(moved)) => {
            let lapsed = moved.lapsed;
            let next = moved.next_deadline;
            println!(rt; "move -> {lapsed} lapsed, next deadline {next}")
        }
        Told::Moved(Err(refusal)) => show_refusal(rt, "move", *refusal),
        Told::Reported(Ok(length)) => println!(rt; "report -> {length} bytes"),
        Told::Reported(Err(refusal)) => show_refusal(rt, "report", *refusal),
        Told::Account(account) => show_account(rt, account),
        Told::Reservation(reservation) => show_reservation(rt, reservation),
        Told::Moment(moment) => println!(rt; "moment {moment}"),
        Told::Reading(reading) => show_reading(rt, reading),
    }
}

pub fn show_refusal(rt: &HostRuntime, call: &str, refusal: Refusal) -> io::Result<()> {
    println!(rt; "{call} -> refused {refusal}")
}

fn show_account(rt: &HostRuntime, account: &Option<Standing>) -> io::Result<()> {
    match account {
        None => println!(rt; "no account"),
        Some(standing) => {
            let number = standing.account.number;
            let (dp, dq) = (standing.debits_pending, standing.debits_posted);
            let (cp, cq) = (standing.credits_pending, standing.credits_posted);
            println!(rt;
                "account {number}: debits {dp} pending, {dq} posted; credits {cp} pending, {cq} posted"
            )
        }
    }
}

fn show_reservation(rt: &HostRuntime, reservation: &Option<Reservation>) -> io::Result<()> {
    match reservation {
        None => println!(rt; "no reservation"),
        Some(held) => {
            let (number, fate) = (held.number, held.fate);
            println!(rt; "reservation {number}: {fate}")
        }
    }
}

fn show_reading(rt: &HostRuntime, reading: &Reading) -> io::Result<()> {
    match reading {
        Ok(()) => println!(rt; "read through"),
        Err(stop) => {
            let (place, refusal) = (stop.place, stop.refusal);
            println!(rt; "reading stopped at {place}: {refusal}")
        }
    }
}
