ghost use Rattle.std.specs.Prelude.{◌≡◌, IfOk, IsTrue, List, Err, Some, not, option_map, true};
ghost use Rattle.mail_base.specs.Answering.{is_calm};
ghost use Rattle.mail_base.specs.Notes.{is_status};
ghost use Rattle.mail_base.specs.declared.draw.Draw.{Draw as TheDraw};
ghost use Rattle.alias_expand.specs.Rows.{is_files_fault};
ghost use Rattle.smtp_receive.specs.declared.judge.Verdict.TheVariants.{No};
ghost use Rattle.mail_judge.specs.Judged as spec;
ghost use Rattle.mail_judge.specs.Judged.{error_of as error_seen};

use alias_expand::ExpandRefusal;
use mail_base::{Cause, JudgeFault, NoMemory, RouteError, Status, Text};
use smtp_receive::Verdict;
use std::alloc::Global;

/// What is said of a recipient whose aliases give no rows, or the fault.
pub(crate) fn refused(alloc: Global, refusal: ExpandRefusal) -> Result<Verdict, JudgeFault>
    ensures says { IfOk result (λ verdict. option_map No (error_seen refusal) ≡ Some verdict) }
    ensures fault { not (is_calm result) ≡ is_files_fault {T = List TheDraw} (Err refusal) }
{
    Ok(Verdict::No(error_of(alloc, refusal)?))
}

/// The error of a recipient whose aliases give no rows: its own, or that of a reply of one line. A
/// fault of files and want of memory stay what they are.
pub fn error_of(alloc: Global, refusal: ExpandRefusal) -> Result<RouteError, JudgeFault>
    ensures says { IfOk result (λ error. error_seen refusal ≡ Some error) }
    ensures fault { not (is_calm result) ≡ is_files_fault {T = List TheDraw} (Err refusal) }
{
    match refusal {
        ExpandRefusal::Refuses(error) => Ok(error),
        ExpandRefusal::TooDeep => told(alloc, 554, b"5.4.6", b"Aliases too deep", Cause::Deep),
        ExpandRefusal::TooMany => Ok(too_many(alloc)?),
        ExpandRefusal::IncludeAbsent(_) => told(
            alloc,
            550,
            b"5.2.4",
            b"Include file absent",
            Cause::FileMailer,
        ),
        ExpandRefusal::NoOne => told(
            alloc,
            554,
            b"5.4.6",
            b"Aliases leave no one",
            Cause::NotResolved,
        ),
        ExpandRefusal::FilesFault => Err(JudgeFault::FilesFault),
        ExpandRefusal::NoMemory => Err(JudgeFault::NoMemory),
    }
}

/// The error where more recipients or rows come, or more files are read, than may be.
pub fn too_many(alloc: Global) -> Result<RouteError, NoMemory>
    ensures { IfOk result (λ error. error ≡ spec.too_many) }
{
    error_with(alloc, 452, b"4.5.3", b"Too many recipients", Cause::Work)
}

// The error of a reply of one line, as the answer of a judge.
fn told(
    alloc: Global,
    code: u16,
    status: &'static [u8],
    text: &'static [u8],
    cause: Cause,
) -> Result<RouteError, JudgeFault>
    requires { IsTrue (is_status status.now) }
    ensures says { IfOk result (λ error. error ≡ spec.error_with code status.now text.now cause) }
    ensures calm { is_calm result ≡ true }
{
    Ok(error_with(alloc, code, status, text, cause)?)
}

/// The error of a reply of one line: its code, its status, its text, and what brought it.
pub fn error_with(
    alloc: Global,
    code: u16,
    status: &'static [u8],
    text: &'static [u8],
    cause: Cause,
) -> Result<RouteError, NoMemory>
    requires { IsTrue (is_status status.now) }
    ensures { IfOk result (λ error. error ≡ spec.error_with code status.now text.now cause) }
{
    let text = Text::of(alloc, text)?;
    Ok(RouteError {
        code,
        status: Status::of(status).unwrap(),
        text,
        cause,
    })
}
