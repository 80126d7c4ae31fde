// The two counts behind number 15: the statements that build, each of which may make a value, and those that send or receive, each of
// which logs a message. They are counted from the list as it is written, whatever a run does.
#![tactic(auto)]

ghost use Rattle.std.specs.Prelude.{◌≡◌};
ghost use Rattle.calculus.specs.Version1.{signature1};
ghost use Rattle.running.specs.Demand3.{builds, messages};
ghost use Rattle.decoded_list.specs.Statements.{statements_of};
ghost use Rattle.room_counts.specs.Room.{Counts};

use codes::Kind;

// The statements whose op passes a test.
// They are no more than the list has, whose count has 16 bits: `as` cuts nothing.
fn count_of<F: Fn(u8) -> bool>(list: &[u8], test: F) -> u16
    requires { F.IsAlwaysCallable test }
    ensures { Counts (F.post test) list.now result }
{
    let base = list::statements_at(list);
    (0..list::statement_count(list))
        .filter(|&i| test(entries::code_at(list, Kind::Statement, base, i)))
        .count() as u16
}

// The statements that build: 7 and 8.
pub fn build_count(list: &[u8]) -> u16
    ensures { result ≡ builds signature1 (statements_of list.now) }
{
    count_of(list, |op| match op {
        7..=8 => true,
        0..=6 | 9..=255 => false,
    })
}

// The statements that send or receive: 0 and 1.
pub fn message_count(list: &[u8]) -> u16
    ensures { result ≡ messages signature1 (statements_of list.now) }
{
    count_of(list, |op| match op {
        0..=1 => true,
        2..=255 => false,
    })
}
