ghost use Rattle.std.specs.Prelude.{◌≡◌, IfOk};
ghost use Rattle.submit_run.specs.Messages as spec;
ghost use Rattle.submit_run.specs.Parties as parties;

use mail_base::{Config, Draw, Kept, Marks, Message, NoMemory, Seq, Text};
use mail_header::class_of;
use mail_submit::Submission;
use std::alloc::Global;

/// What is kept of the session of a message that is handed over.
pub(crate) fn kept(alloc: Global) -> Result<Kept, NoMemory>
    ensures { IfOk result (λ kept. kept ≡ parties.kept) }
{
    Ok(Kept {
        protocol: Text::of(alloc, b"SUBMIT")?,
        helo: Text::of(alloc, b"localhost")?,
        client: Text::new(alloc),
    })
}

/// The message of a submission with its sender and the rows of its recipients.
pub(crate) fn message_with(
    alloc: Global,
    config: &Config,
    submission: Submission,
    sender: Text,
    rows: Seq<Draw>,
) -> Result<Message, NoMemory>
    ensures { IfOk result
        (λ message. message ≡ spec.message_with config.now sender submission rows) }
{
    let kept = kept(alloc)?;
    let class = class_of(config, &submission.headers);
    Ok(Message {
        sender,
        rows,
        headers: submission.headers,
        body: submission.body,
        size: submission.size,
        class,
        eight: false,
        marks: Marks {
            bounce: false,
            double: false,
            warned: false,
        },
        kept,
    })
}
