ghost use Rattle.std.specs.Prelude.{◌≡◌, ◌+◌, ◌<◌, ◌^◌, IfOk, filter, length, not};
ghost use Rattle.mail_header.specs.Headers.{text_of};
ghost use Rattle.mail_submit.specs.Submissions as spec;
ghost use Rattle.mail_submit.specs.Submissions.{IsSubmission};

use crate::Submission;
use crate::addresses::{first_from, is_bcc, recipients_in};
use mail_base::{NoMemory, Seq, Text};
use mail_header::split;
use std::alloc::Global;

/// What of a message is sent, and to whom. Where recipients come from headers, they are the
/// addresses in the headers To, Cc and Bcc, and Bcc isn't sent; else there are none, and all headers
/// are sent. An address stands where `mail_header::places` says, without the CRs and LFs of folds.
pub fn submitted(text: &Text, from_headers: bool) -> Result<Submission, NoMemory>
    ensures { IfOk result (IsSubmission text.now from_headers) }
{
    let split = split(text)?;
    let recipients = recipients_of(text.allocator(), split.headers.items(), from_headers)?;
    let first_from = first_from(split.headers.items())?;
    let behind = text.len() as u64 - split.block;
    let headers = kept_headers(split.headers, from_headers);
    let size = text_length(headers.items()) + behind;
    Ok(Submission {
        headers,
        body: split.body,
        size,
        block: split.block,
        recipients,
        first_from,
    })
}

fn recipients_of(alloc: Global, headers: &[Text], from_headers: bool) -> Result<Seq<Text>, NoMemory>
    ensures { IfOk result (λ texts. texts ≡ spec.recipients_of from_headers headers.now) }
{
    if from_headers {
        return recipients_in(alloc, headers);
    }
    Ok(Seq::new(alloc))
}

/// The headers that are sent.
fn kept_headers(headers: Seq<Text>, from_headers: bool) -> Seq<Text>
    ensures { result ≡ spec.kept_headers from_headers headers }
{
    if !from_headers {
        return headers;
    }
    let mut items = headers.into_vec();
    take_out_bcc(&mut items);
    Seq::from_vec(items)
}

fn take_out_bcc(headers: &mut Vec<Text>)
    ensures { headers.new.items ≡ spec.without_bcc headers.old.items }
{
    headers.retain(|header| is_sent(header));
}

fn is_sent(header: &Text) -> bool
    ensures { result ≡ not (spec.is_bcc header.now) }
{
    !is_bcc(header.bytes())
}

/// How many bytes headers have, each with CR LF.
fn text_length(headers: &[Text]) -> u64
    requires { length (text_of headers.now) < 2 ^ 64 }
    ensures { result ≡ length (text_of headers.now) }
{
    let mut length = 0u64;
    for header in headers {
        length += header.len() as u64 + 2;
    }
    length
}
