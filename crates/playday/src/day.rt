use engine::state::Engine;
use rules::refusal::Refusal;
use rules::round::Line;
use std::fmt;

/// A query that staff ask for.
#[derive(Clone, Copy)]
pub struct Wanted {
    pub priority: u8,
    pub period: u32,
    pub deadline: u32,
}

/// What is done with the engine.
#[derive(Clone, Copy)]
pub enum Act {
    /// Book a query and confirm the booking.
    Keep(Wanted),
    /// Book a query and withdraw the booking.
    GiveUp(Wanted),
    Try(Wanted),
    Wait(u32),
    Release(u32),
    Close(u32),
    Slot,
}

/// Books a query and confirms the booking. A booking just handed out is never refused.
fn keep(engine: &mut Engine, query: Wanted) -> Result<u32, Refusal> {
    let booking = engine.book(query.priority, query.period, query.deadline)?;
    let number = booking.number();
    match engine.confirm(booking) {
        Ok(()) => Ok(number),
        Err(_) => unreachable(),
    }
}

/// Books a query and withdraws the booking.
// Apart from `keep`: that it is never refused is known of these two calls, and not of a closure that stands for them
fn give_up(engine: &mut Engine, query: Wanted) -> Result<u32, Refusal> {
    let booking = engine.book(query.priority, query.period, query.deadline)?;
    let number = booking.number();
    match engine.withdraw(booking) {
        Ok(()) => Ok(number),
        Err(_) => unreachable(),
    }
}

/// What is answered.
#[derive(Clone, Copy)]
enum Answer {
    Query(u32),
    WouldBe(u32),
    Wait(u32, u64),
    Refused(Refusal),
}

impl fmt::Display for Act {
    fn fmt<W: fmt::Write>(&self, f: &mut fmt::Formatter<W>) -> fmt::Result {
        f.write_str(match self {
            Act::Keep(_) => "book and confirm",
            Act::GiveUp(_) => "book and withdraw",
            Act::Try(_) => "try",
            Act::Wait(_) => "wait",
            Act::Release(_) => "release",
            Act::Close(_) => "close",
            Act::Slot => "slot",
        })
    }
}

impl fmt::Display for Answer {
    fn fmt<W: fmt::Write>(&self, f: &mut fmt::Formatter<W>) -> fmt::Result {
        match self {
            Answer::Query(number) => write!(f, "query {number}"),
            Answer::WouldBe(number) => write!(f, "it would be query {number}"),
            Answer::Wait(number, wait) => {
                write!(
                    f,
                    "query {number} starts at most {wait} slots after its release"
                )
            }
            Answer::Refused(why) => match why.named() {
                Some(number) => write!(f, "refused {}, naming query {number}", why.code()),
                None => write!(f, "refused {}", why.code()),
            },
        }
    }
}

/// A slot: a line for each round that runs.
fn print_slot(rt: &HostRuntime, engine: &mut Engine) -> anyhow::Result<()> {
    let mut lines = [Line::default(); 256];
    match engine.slot(&mut lines) {
        Ok(count) => {
            println!(rt; "{}, rounds that run: {count}", Act::Slot)?;
            for line in lines.iter().take(count) {
                println!(rt; "  query {} step {}", line.number, line.step)?;
            }
        }
        Err(why) => println!(rt; "{}: {}", Act::Slot, Answer::Refused(why))?,
    }
    Ok(())
}

/// Plays one act, and prints what came of it.
pub fn play(rt: &HostRuntime, engine: &mut Engine, act: Act) -> anyhow::Result<()> {
    let answer = match act {
        Act::Keep(query) => keep(engine, query).map(Answer::Query),
        Act::GiveUp(query) => give_up(engine, query).map(Answer::Query),
        Act::Try(query) => engine
            .trial(query.priority, query.period, query.deadline)
            .map(Answer::WouldBe),
        Act::Wait(number) => engine.wait(number).map(|wait| Answer::Wait(number, wait)),
        Act::Release(number) => engine.release(number).map(|()| Answer::Query(number)),
        Act::Close(number) => engine.close(number).map(|()| Answer::Query(number)),
        Act::Slot => return print_slot(rt, engine),
    };
    let answer = answer.unwrap_or_else(Answer::Refused);
    println!(rt; "{act}: {answer}")?;
    Ok(())
}
