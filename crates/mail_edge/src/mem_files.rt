ghost use Rattle.std.specs.Prelude.{◌≡◌, ◌≤◌, ◌↔◌, false, length, All, IfOk, IfSome, IsSome, Some};
ghost use Rattle.std.specs.Option.{option_copied};
ghost use Rattle.mail_base.specs.Causes.{HasEdgeCause, has_failed};
ghost use Rattle.mail_base.specs.Scripts.{is_listed, after_call};
ghost use Rattle.mail_edge.specs.Seen.{FileMap, text_of};

use crate::files::{Files, LARGEST_FILE};
use mail_base::{EdgeFault, NoMemory, Script, Seq, Text};
use std::alloc::Global;
use std::marker::Model;

/// Files in memory, each with its name and its text. They never fail, and their count of faults is
/// 0. A contract sees the list of the names and texts.
#[derive(Drop)]
pub struct SureFiles {
    files: Seq<(Text, Text)>,
}

impl Model for SureFiles {
    ghost use Rattle.std.specs.Prelude.{◌≤◌, length, All};
    ghost use Rattle.mail_edge.specs.Seen.{FileMap};
    ghost use Rattle.mail_edge.specs.declared.files.TheConstants.{LARGEST_FILE};

    ghost Value = { FileMap };

    ghost view = { λ f. f.files };

    ghost invariant = { λ f. All (λ file. length file.1 ≤ LARGEST_FILE) f.files };
}

impl SureFiles {
    /// Files of these names and texts, of which the first of each name counts. `None` exactly where
    /// a text is longer than `LARGEST_FILE`. It takes no memory.
    pub fn new(files: Seq<(Text, Text)>) -> Option<SureFiles>
        ensures made { IfSome result (λ made. made ≡ files) }
        ensures exactly { IsSome result ↔ All (λ file. length file.1 ≤ LARGEST_FILE) files }
    {
        if files
            .items()
            .iter()
            .all(|file| file.1.len() <= LARGEST_FILE)
        {
            Some(SureFiles { files })
        } else {
            None
        }
    }

    // The text of the first file of that name.
    fn find(&self, name: &Text) -> Option<&Text>
        ensures text { option_copied result ≡ text_of self.now name.now }
        ensures bound { IfSome result (λ text. length text.now ≤ LARGEST_FILE) }
    {
        for file in self.files.items() {
            if name.bytes() == file.0.bytes() {
                return Some(&file.1);
            }
        }
        None
    }

    // A copy of the text of the first file of that name.
    fn copied(&self, alloc: Global, name: &Text) -> Result<Option<Text>, NoMemory>
        ensures text { IfOk result (λ text. text ≡ text_of self.now name.now) }
        ensures bound { IfOk result (λ text. IfSome text (λ bytes. length bytes ≤ LARGEST_FILE)) }
    {
        match self.find(name) {
            None => Ok(None),
            Some(text) => Ok(Some(Text::of(alloc, text.bytes())?)),
        }
    }
}

impl Files for SureFiles {
    ghost seen = { λ f. record { map = Some f; faults = 0 } };

    fn read(&mut self, alloc: Global, name: &Text) -> Result<Option<Text>, EdgeFault> {
        Ok(self.copied(alloc, name)?)
    }
}

/// Files in memory, some of whose calls fail.
#[derive(Drop)]
pub struct MemFiles {
    pub files: SureFiles,
    pub script: Script,
}

impl MemFiles {
    /// These files, and which of their calls, counted from 0, are to fail. It takes no memory.
    pub fn new(files: SureFiles, failing: Seq<u64>) -> MemFiles
        ensures files { result.files ≡ files }
        ensures script { result.script ≡ record { failing = failing; calls = 0; faults = 0 } }
    {
        MemFiles {
            files,
            script: Script::new(failing),
        }
    }
}

impl Files for MemFiles {
    ghost seen = { λ f. record { map = Some f.files; faults = f.script.faults } };

    fn read(&mut self, alloc: Global, name: &Text) -> Result<Option<Text>, EdgeFault>
        ensures fails { has_failed result ≡ is_listed self.old.script }
        ensures counted { self.new.script ≡ after_call self.old.script (has_failed result) }
        ensures text { IfOk result (λ text. text ≡ text_of self.old.files name.now) }
        ensures bound { IfOk result (λ text. IfSome text (λ bytes. length bytes ≤ LARGEST_FILE)) }
        ensures fixed { self.new.files ≡ self.old.files }
        ensures cause { HasEdgeCause self.old.script.faults self.new.script.faults result }
        ensures calm { has_failed result ≡ false → self.new.script.faults ≡ self.old.script.faults }
    {
        self.script.call()?;
        Ok(self.files.copied(alloc, name)?)
    }
}
