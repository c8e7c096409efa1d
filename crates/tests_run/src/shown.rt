// What stands in a configuration, as texts.
use crate::listed::add;
use mail_base::{Group, HeaderLine, Mailer, NoMemory, Options, Text};

// The bytes of a text, or `-` where there is none.
fn bytes_of(text: &Option<Text>) -> &[u8] {
    match text {
        Some(text) => text.bytes(),
        None => b"-",
    }
}

// A blank, and then a text, for each of these.
fn put_words(out: &mut Text, words: &[&[u8]]) -> Result<(), NoMemory> {
    for word in words {
        add(out, &[b" ", *word])?;
    }
    Ok(())
}

fn put_texts(out: &mut Text, texts: &[Text]) -> Result<(), NoMemory> {
    for text in texts {
        add(out, &[b" ", text.bytes()])?;
    }
    Ok(())
}

// A blank, and then a number, for each of these.
fn put_counts(out: &mut Text, numbers: &[u64]) -> Result<(), NoMemory> {
    for number in numbers {
        let said = format!(in out.allocator(); " {number}")?;
        out.extend(said.as_bytes())?;
    }
    Ok(())
}

fn put_count_or_dash(out: &mut Text, number: Option<u64>) -> Result<(), NoMemory> {
    match number {
        Some(number) => put_counts(out, &[number]),
        None => out.extend(b" -"),
    }
}

/// All texts of the options.
pub(crate) fn put_paths(out: &mut Text, options: &Options) -> Result<(), NoMemory> {
    put_words(
        out,
        &[
            options.queue_directory.bytes(),
            options.hosts_file.bytes(),
            bytes_of(&options.homes_file),
            options.operator_chars.bytes(),
            options.double_bounce_address.bytes(),
        ],
    )?;
    put_texts(out, options.alias_files.items())
}

/// All times and the port of the options.
pub(crate) fn put_times(out: &mut Text, options: &Options) -> Result<(), NoMemory> {
    put_counts(out, &[options.daemon_port.port as u64])?;
    put_words(out, &[bytes_of(&options.daemon_port.address)])?;
    put_counts(out, &[options.queue_return])?;
    put_count_or_dash(out, options.queue_warn)?;
    put_counts(out, &[options.min_queue_age])
}

/// All other numbers of the options.
pub(crate) fn put_numbers(out: &mut Text, options: &Options) -> Result<(), NoMemory> {
    put_counts(
        out,
        &[
            options.max_daemon_sessions,
            options.max_hop_count,
            options.max_alias_recursion,
            options.max_message_size,
            options.max_recipients_per_message,
            options.recipient_factor,
            options.class_factor,
            options.retry_factor,
        ],
    )
}

/// What a mailer is.
pub(crate) fn put_mailer(out: &mut Text, mailer: &Mailer) -> Result<(), NoMemory> {
    put_words(
        out,
        &[
            mailer.name.bytes(),
            mailer.path.bytes(),
            mailer.flags.bytes(),
            bytes_of(&mailer.envelope_from),
            bytes_of(&mailer.header_from),
            bytes_of(&mailer.envelope_to),
            bytes_of(&mailer.header_to),
            mailer.line_end.bytes(),
        ],
    )?;
    put_counts(out, &[mailer.most])?;
    put_words(out, &[bytes_of(&mailer.group)])?;
    put_counts(out, &[mailer.batch])?;
    put_texts(out, mailer.args.items())
}

/// What a queue group is.
pub(crate) fn put_group(out: &mut Text, group: &Group) -> Result<(), NoMemory> {
    put_words(out, &[group.name.bytes(), group.path.bytes()])?;
    put_counts(out, &[group.recipients, group.runners])?;
    put_count_or_dash(out, group.interval)?;
    put_counts(out, &[group.jobs])
}

/// What a header is, with `;` behind it.
pub(crate) fn put_header(out: &mut Text, header: &HeaderLine) -> Result<(), NoMemory> {
    let (flags, name) = (header.flags.bytes(), header.name.bytes());
    add(
        out,
        &[b"?", flags, b"?", name, b":", header.template.bytes(), b";"],
    )
}
