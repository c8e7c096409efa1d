ghost use Rattle.std.specs.Prelude.{◌≡◌, None, IfOk, IfSome};
ghost use Rattle.cf_reader.specs.ClassLines.{fault_of_class, fault_of_file};
ghost use Rattle.cf_reader.specs.GroupLines.{fault_of_group};
ghost use Rattle.cf_reader.specs.HeaderLines.{fault_of_header};
ghost use Rattle.cf_reader.specs.Letters as spec;
ghost use Rattle.cf_reader.specs.MailerLines.{fault_of_mailer};
ghost use Rattle.cf_reader.specs.MapLines.{fault_of_map};
ghost use Rattle.cf_reader.specs.OptionLines.{fault_of_option};
ghost use Rattle.cf_reader.specs.PrecedenceLines.{fault_of_precedence};
ghost use Rattle.mail_edge.specs.Asking.{Asks};
ghost use Rattle.cf_reader.specs.inner.Readings.{is_files_fault};
ghost use Rattle.cf_reader.specs.Rules.{fault_of_rule};
ghost use Rattle.cf_reader.specs.Faults.{had_name};
ghost use Rattle.cf_reader.specs.inner.Steps.{Steps, Seeks};

use crate::class_line::class;
use crate::define_line::define;
use crate::fault::LineStop;
use crate::fields::line_name;
use crate::file_line::file_class;
use crate::group_line::group_line;
use crate::header_line::header;
use crate::mailer_line::mailer_line;
use crate::map_line::map;
use crate::option_line::option_line;
use crate::precedence_line::precedence_line;
use crate::rules::rule;
use crate::set_line::{add_rule, begin, set_names};
use crate::setting::Setting;
use crate::state::State;
use mail_base::{NoMemory, Text, TryCopy};
use mail_edge::Files;
use std::alloc::Global;

/// Each takes what follows the letter of its line.
impl State {
    pub(crate) fn take_define(&mut self, alloc: Global, text: &[u8]) -> Result<(), LineStop>
        ensures { Steps result None (spec.after_define text.now self.old) self.new }
    {
        define(alloc, text, &mut self.config.macros)?;
        Ok(())
    }

    pub(crate) fn take_class(&mut self, alloc: Global, text: &[u8]) -> Result<(), LineStop>
        ensures { Steps result (fault_of_class text.now self.old.config.macros)
            (spec.after_class text.now self.old) self.new }
    {
        let line = class(alloc, text, &self.config.macros)?;
        self.class_lines.push(line)?;
        Ok(())
    }

    pub(crate) fn take_file<F: Files>(
        &mut self,
        alloc: Global,
        files: &mut F,
        text: &[u8],
    ) -> Result<(), LineStop>
        ensures told { IfSome (F.seen files.old).map
            (λ map. Seeks result (fault_of_file map text.now)
            (spec.after_file map text.now self.old) self.new) }
        ensures asks { Asks (F.seen files.old) (F.seen files.new) (is_files_fault result) }
        ensures config { self.new.config ≡ self.old.config }
    {
        let line = file_class(alloc, text, files)?;
        self.class_lines.push(line)?;
        Ok(())
    }

    pub(crate) fn take_map(&mut self, alloc: Global, text: &[u8]) -> Result<(), LineStop>
        ensures { Steps result (fault_of_map text.now self.old.maps)
            (spec.after_map text.now self.old) self.new }
    {
        let line = map(alloc, text, &self.maps)?;
        self.maps.push(line)?;
        Ok(())
    }

    pub(crate) fn take_mailer(&mut self, alloc: Global, text: &[u8]) -> Result<(), LineStop>
        ensures { Steps result (fault_of_mailer text.now)
            (spec.after_mailer text.now self.old) self.new }
    {
        let mailer = mailer_line(alloc, text)?;
        let name = mailer.name.folded()?;
        self.config.mailers.set(name, mailer)?;
        Ok(())
    }

    pub(crate) fn take_precedence(&mut self, alloc: Global, text: &[u8]) -> Result<(), LineStop>
        ensures { Steps result (fault_of_precedence text.now)
            (spec.after_precedence text.now self.old) self.new }
    {
        let precedence = precedence_line(alloc, text)?;
        self.config.precedences.push(precedence)?;
        Ok(())
    }

    pub(crate) fn take_group(&mut self, alloc: Global, text: &[u8]) -> Result<(), LineStop>
        ensures { Steps result (fault_of_group (had_name self.old text.now) text.now)
            (spec.after_group text.now self.old) self.new }
    {
        let again = self.had_group(alloc, line_name(text))?;
        let group = group_line(alloc, text, again)?;
        let name = group.name.copy()?;
        let is_main = is_main(&name);
        self.config.groups.set(name, group)?;
        self.has_main = self.has_main || is_main;
        Ok(())
    }

    // Whether a Q line had this name.
    fn had_group(&self, alloc: Global, name: &[u8]) -> Result<bool, NoMemory>
        ensures { IfOk result (λ had. had ≡ spec.had_group name.now self.now) }
    {
        let name = Text::of(alloc, name)?;
        Ok(self.config.groups.get(&name).is_some() && (self.has_main || !is_main(&name)))
    }

    pub(crate) fn take_set(&mut self, alloc: Global, text: &[u8]) -> Result<(), LineStop>
        ensures { Steps result None (spec.after_set text.now self.old) self.new }
    {
        let names = set_names(alloc, text)?;
        begin(alloc, names.items(), &mut self.config.book)?;
        self.names = names;
        self.has_rules = true;
        Ok(())
    }

    pub(crate) fn take_rule(&mut self, alloc: Global, text: &[u8]) -> Result<(), LineStop>
        ensures { Steps result
            (fault_of_rule text.now self.old.config.macros self.old.config.options.operator_chars)
            (spec.after_rule text.now self.old) self.new }
    {
        let rule = rule(
            alloc,
            text,
            &self.config.macros,
            &self.config.options.operator_chars,
        )?;
        add_rule(alloc, self.names.items(), rule, &mut self.config.book)?;
        self.has_rules = true;
        Ok(())
    }

    pub(crate) fn take_option(
        &mut self,
        alloc: Global,
        number: u32,
        text: &[u8],
    ) -> Result<(), LineStop>
        ensures { Steps result (fault_of_option self.old.has_rules text.now)
            (spec.after_option number text.now self.old) self.new }
    {
        let options = &mut self.config.options;
        match option_line(alloc, options, text, self.has_rules, self.has_daemon)? {
            Some(setting) => {
                self.has_daemon = self.has_daemon || is_daemon(setting);
                Ok(())
            }
            None => self.ignore(number),
        }
    }

    pub(crate) fn take_header(
        &mut self,
        alloc: Global,
        number: u32,
        text: &[u8],
    ) -> Result<(), LineStop>
        ensures { Steps result (fault_of_header text.now)
            (spec.after_header number text.now self.old) self.new }
    {
        match header(alloc, text)? {
            Some(header) => {
                self.config.headers.push(header)?;
                Ok(())
            }
            None => self.ignore(number),
        }
    }

    /// Ignores the line of this number, with a warning.
    pub(crate) fn ignore(&mut self, number: u32) -> Result<(), LineStop>
        ensures { Steps result None (spec.ignored number self.old) self.new }
    {
        self.config.warnings.push(number)?;
        Ok(())
    }
}

fn is_main(name: &Text) -> bool
    ensures { result ≡ spec.is_main name.now }
{
    name.bytes() == b"mqueue".as_slice()
}

fn is_daemon(setting: Setting) -> bool
    ensures { result ≡ spec.is_daemon setting }
{
    match setting {
        Setting::DaemonPort => true,
        _ => false,
    }
}
