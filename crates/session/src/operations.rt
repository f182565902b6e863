// The operation of a line.
ghost use Rattle.std.specs.Prelude.{◌≡◌};
ghost use Rattle.session.specs.Operation.{operation_of, numbers_after, one_in, empties_in, advance_by};

// An advance with its reports and its empties, a position withdrawn, the positions of a set withdrawn together, a row asked with empties, one asked as
// sets, or who works asked.
#[derive(Clone, Copy)]
pub enum Operation {
    Advance(u32, u32),
    Withdraw(u32),
    WithdrawAll(u32),
    Row(u32),
    Sets(u32),
    Working(u32),
}

// The numbers after the letter of a line: none, one or two.
#[derive(Clone, Copy)]
pub enum Numbers {
    Bare,
    One(u32),
    Two(u32, u32),
}

impl Numbers {
    // The one number, where there is no other.
    fn one(self) -> Option<u32>
        ensures { result ≡ one_in self }
    {
        match self {
            Numbers::One(number) => Some(number),
            Numbers::Bare | Numbers::Two(_, _) => None,
        }
    }

    // The set of empties, 0 without a number.
    fn empties(self) -> Option<u32>
        ensures { result ≡ empties_in self }
    {
        match self {
            Numbers::Bare => Some(0),
            Numbers::One(empties) => Some(empties),
            Numbers::Two(_, _) => None,
        }
    }
}

// The numbers after the letter of a line, one space before each; or `None` where something else is there.
fn after(rest: &[u8]) -> Option<Numbers>
    ensures { result ≡ numbers_after rest.now }
{
    let count = rest.len();
    if count == 0 {
        return Some(Numbers::Bare);
    }
    if rest[0] != b' ' {
        return None;
    }
    let end = text::line::end_from(rest, 1, b' ');
    let first = text::line::number(&rest[1..end])?;
    if end == count {
        return Some(Numbers::One(first));
    }
    let second = text::line::number(&rest[end + 1..count])?;
    Some(Numbers::Two(first, second))
}

// An advance with the numbers after its letter.
fn advance_by(numbers: Numbers) -> Option<Operation>
    ensures { result ≡ advance_by numbers }
{
    match numbers {
        Numbers::Bare => None,
        Numbers::One(reports) => Some(Operation::Advance(reports, 0)),
        Numbers::Two(reports, empties) => Some(Operation::Advance(reports, empties)),
    }
}

// The operation of a line: `a REPORTS EMPTIES`, `r EMPTIES`, `s EMPTIES`, `j EMPTIES`, `w POSITION`, `W SET`, or none.
pub fn operation_of(line: &[u8]) -> Option<Operation>
    ensures { result ≡ operation_of line.now }
{
    let (letter, rest) = line.split_first()?;
    let numbers = after(rest)?;
    match *letter {
        b'a' => advance_by(numbers),
        b'r' => numbers.empties().map(Operation::Row),
        b'w' => numbers.one().map(Operation::Withdraw),
        b'W' => numbers.one().map(Operation::WithdrawAll),
        b's' => numbers.empties().map(Operation::Sets),
        b'j' => numbers.empties().map(Operation::Working),
        _ => None,
    }
}
