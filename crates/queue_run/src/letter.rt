ghost use Rattle.std.specs.Prelude.{◌≡◌};
ghost use Rattle.cf_macros.specs.Expansion.{host_name};
ghost use Rattle.mail_base.specs.declared.config.Config.{Config};
ghost use Rattle.mail_base.specs.declared.control.Control.{Control};
ghost use Rattle.queue_run.specs.Handovers.{mail_of};

use mail_base::{Macros, Seq, Text};
use mailer_smtp::Letter as Mail;

/// What a mailer is handed of an entry.
pub struct Letter {
    /// The body, as it was read.
    pub body: Text,
    /// The sender for the mailer.
    pub sender: Text,
    /// The date of the message.
    pub date: Text,
    /// What templates see.
    pub macros: Macros,
    /// The headers, with those that the configuration adds, and addresses as the mailer shows them.
    pub headers: Seq<Text>,
    /// The whole text.
    pub text: Text,
}

// Written out, since a caller's proof goes through the parts of a derived drop at each way out.
impl Drop for Letter {
    fn drop(self) {
        let Letter {
            body: _,
            sender: _,
            date: _,
            macros: _,
            headers: _,
            text: _,
        } = self;
    }
}

impl Letter {
    // What is handed over of it to peers: the sender and the text are kept. It takes no memory.
    pub(crate) fn into_mail(self, host: Text, users: Seq<Text>, eight: bool) -> Mail
        ensures { (config : Config) (control : Control) → host ≡ host_name config.macros
            → eight ≡ control.eight → result ≡ mail_of config control users self }
    {
        let Letter {
            body: _,
            sender,
            date: _,
            macros: _,
            headers: _,
            text,
        } = self;
        Mail {
            host,
            sender,
            users,
            message: text,
            eight,
        }
    }
}
