ghost use Rattle.std.specs.Prelude.{◌≡◌, ◌≤◌, ◌++◌, ◌∷◌, [], List, ℕ, None, Some, false, length, reverse};
ghost use Rattle.mail_base.specs.Limits.{IsId};
ghost use Rattle.smtp_lines.specs.declared.line.Line.{Line};
ghost use Rattle.mail_base.specs.declared.config.Config.{Config};
ghost use Rattle.mail_base.specs.declared.message.Split.{Split};
ghost use Rattle.smtp_receive.specs.Replies.{greeting_text, stored_text, out_of_memory_text, too_many_sessions_text};
ghost use Rattle.mail_header.specs.Headers.{AreLines, IsSplit, text_of};
ghost use Rattle.mail_header.specs.Lines.{block_of, body_of, headers_of, size_of};
ghost use Rattle.smtp_receive.specs.Dialogue.{listed, Answer, Gives, Heard, dialogue, did_of, exchange_of, exchanges, lines_in, replies_to, reply_by, reply_heard};
ghost use Rattle.smtp_receive.specs.Sessions.{answer_of};
ghost use Rattle.smtp_receive.specs.Forms.{AreFormed, IsFormed, IsSplitOf};
ghost use Rattle.smtp_receive.specs.Finals.{IsFinal, text_told};
ghost use Rattle.smtp_receive.specs.Judging.{IsFormedSaid, Said};
ghost use Rattle.smtp_receive.specs.Mails.{Mail};

/// A dialogue goes on by one exchange a line, which answers the line by the dialogue before it.
pub fn one_exchange_a_line()
    ensures { (config : Config) (peer : List ℕ) (heard : List Heard) (next : Heard)
        → dialogue config peer (heard ++ next ∷ [])
        ≡ dialogue config peer heard
        ++ exchange_of config peer (reverse (dialogue config peer heard)) next ∷ [] }
{}

/// Each line that a session is given adds its reply, if it gets one, to the session's replies. What
/// is done at an answer says this reply; that of a message is said once it has its id.
pub fn one_reply_a_line()
    ensures more { (config : Config) (host peer : List ℕ) (heard : List Heard) (next : Heard)
        → replies_to config host peer (heard ++ next ∷ [])
        ≡ replies_to config host peer heard
        ++ listed (reply_heard config host peer (exchanges config peer heard) next) }
    ensures told { (host : List ℕ) (limit : ℕ) (answer : Answer)
        → text_told (did_of host limit answer) ≡ reply_by host limit (Some answer) None }
{}

/// A message that is given has its parts in their forms, whatever the lines are, where all that the
/// judge said is in its own.
pub fn messages_have_forms()
    ensures { (config : Config) (peer : List ℕ) (heard : List Heard) (said : Said) (line : Line)
        (message : Mail)
        → AreFormed config peer heard → answer_of config peer heard said line ≡ Gives message
        → IsFormed message peer }
{}

/// A message that is given has the headers and the body of its lines' text, where no line has an
/// end inside.
pub fn messages_are_split()
    ensures { (config : Config) (peer : List ℕ) (heard : List Heard) (said : Said) (line : Line)
        (message : Mail) (lines : List (List ℕ))
        → answer_of config peer heard said line ≡ Gives message
        → lines_in (exchanges config peer heard) ≡ Some lines
        → AreLines lines → IsSplitOf message (text_of lines) }
{}

/// What a dialogue computes of a message's lines is what the grammar of headers says of their text:
/// the bytes of the header block, above whose limit 552 5.6.0 comes; the headers, of which those
/// named `Received` are counted for 554 5.4.6; the body; and the bytes of all.
pub fn lines_are_split_by_the_grammar()
    ensures split { (lines : List (List ℕ)) (split : Split)
        → AreLines lines → IsSplit (text_of lines) split
        → split ≡ record {
          headers = headers_of lines;
          body = body_of lines;
          block = size_of (block_of false lines);
        } }
    ensures size { (lines : List (List ℕ)) → length (text_of lines) ≡ size_of lines }
{}

/// Of all that is replied, the reply to a message that is stored is alone in saying so, whatever
/// the host is, where what the judge says is in its form.
pub fn no_other_reply_is_final()
    ensures lines { (config : Config) (host peer : List ℕ) (limit : ℕ) (heard : List Heard)
        (said : Said) (line : Line) (text : List ℕ)
        → IsFormedSaid said
        → text_told (did_of host limit (answer_of config peer heard said line)) ≡ Some text
        → ¬ IsFinal text }
    ensures greeting { (host : List ℕ) → ¬ IsFinal (greeting_text host) }
    ensures memory { ¬ IsFinal out_of_memory_text }
    ensures sessions { ¬ IsFinal too_many_sessions_text }
{}

/// The reply to a message that is stored tells which it is.
pub fn a_final_reply_tells_its_message()
    ensures { (one other : ℕ) → IsId one → IsId other
        → stored_text one ≡ stored_text other → one ≡ other }
{}
