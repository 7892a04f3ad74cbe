//! Failing tests of a line.
ghost use Rattle.std.specs.Prelude.{◌≡◌, Ok, Err, if◌then◌else◌};
ghost use Rattle.flow_grammar.specs.{declared.fault.Code.TheVariants.Syntax, declared.fault.LineFail.TheVariants.Fault};

use flow_grammar::{Code, LineFail};

/// A value that was read, or the first test that its line fails.
pub type Parsed<T> = Result<T, LineFail>;

/// A value that passes its own tests, or the first test that it fails. Another part of the line may fail an earlier test.
pub type Judged<T> = Result<T, Code>;

/// Fails with this code, unless the test holds.
pub fn ensure(holds: bool, code: Code) -> Parsed<()>
    ensures { result ≡ (if holds then Ok tt else Err (Fault code)) }
{
    if holds {
        Ok(())
    } else {
        Err(LineFail::Fault(code))
    }
}

/// Fails with `Syntax`, unless the test holds.
pub fn syntax(holds: bool) -> Parsed<()>
    ensures { result ≡ (if holds then Ok tt else Err (Fault Syntax)) }
{
    ensure(holds, Code::Syntax)
}
