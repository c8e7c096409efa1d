ghost use Rattle.std.specs.Prelude.{◌≡◌, ◌≤◌, IfOk, OnOk, length, slice_range};
ghost use Rattle.std.specs.List.{list_all};
ghost use Rattle.mail_header.specs.Headers.{is_plain};
ghost use Rattle.mail_header.specs.Places.{AreApart, places_of};
ghost use Rattle.header_rewrite.specs.Rewriting as spec;
ghost use Rattle.header_rewrite.specs.inner.Filling.{Adds, FillsBy};

use mail_base::{Config, Macros, NoMemory, Seq, Text};
use mail_header::{Span, places};
use map_tables::Maps;
use ruleset_run::{Rewritten, rewrite};
use std::marker::Model;

/// The rulesets that addresses go through, and what these read.
#[derive(Drop)]
pub(crate) struct Way<'a> {
    pub(crate) config: &'a Config,
    pub(crate) maps: &'a Maps,
    pub(crate) macros: &'a Macros,
    pub(crate) sets: &'a Seq<Text>,
}

impl<'a> Model for Way<'a> {
    ghost use Rattle.ruleset_run.specs.Sites.{site_of};
    ghost use Rattle.header_rewrite.specs.inner.Ways.{Way as TheWay};

    ghost Value = { TheWay };

    ghost view = { λ w. record {
      site = site_of w.config.now w.maps.now;
      macros = w.macros.now;
      sets = w.sets.now;
    } };
}

impl Way<'_> {
    /// A header with what the addresses in it become.
    pub(crate) fn fill(&self, header: &Text) -> Result<Text, NoMemory>
        ensures { IfOk result (FillsBy self.now header.now 0 (places_of header.now)) }
    {
        let places = places(header)?;
        self.fill_places(header, places.items())
    }

    fn fill_places(&self, header: &Text, places: &[Span]) -> Result<Text, NoMemory>
        requires { AreApart 0 places.now (length header.now) }
        ensures { IfOk result (FillsBy self.now header.now 0 places.now) }
    {
        let bytes = header.bytes();
        let mut text = Text::new(header.allocator());
        let mut from = 0usize;
        'places: for (index, place) in places.iter().enumerate() {
            let end = self.add_place(&mut text, bytes, from, place)?;
            from = end;
        }
        text.extend(&bytes[from..])?;
        Ok(text)
    }

    /// Adds what stands from a byte of a header up to a place, and what the address there becomes.
    /// Answers how many bytes stand before the end of the place.
    fn add_place(
        &self,
        text: &mut Text,
        header: &[u8],
        from: usize,
        place: &Span,
    ) -> Result<usize, NoMemory>
        requires order { from ≤ place.now.start }
        requires within { spec.end_of place.now ≤ length header.now }
        ensures end { IfOk result (λ end. end ≡ spec.end_of place.now) }
        ensures adds { OnOk result (Adds self.now (slice_range header.now from place.now.start)
            (spec.address_at header.now place.now) text.old text.new) }
    {
        let end = place.start + place.length;
        let front = &header[from..place.start];
        let address = &header[place.start..end];
        self.add(text, front, address)?;
        Ok(end)
    }

    /// Adds what stands before an address, and what that becomes.
    fn add(&self, text: &mut Text, front: &[u8], address: &[u8]) -> Result<(), NoMemory>
        ensures { OnOk result (Adds self.now front.now address.now text.old text.new) }
    {
        text.extend(front)?;
        let alloc = text.allocator();
        let address = Text::of(alloc, address)?;
        let answer = rewrite(
            alloc,
            self.config,
            self.maps,
            self.macros,
            self.sets,
            &address,
        )?;
        text.extend(put(&address, &answer))?;
        Ok(())
    }
}

/// What stands in the place of an address afterwards.
fn put<'a>(address: &'a Text, answer: &'a Rewritten) -> &'a [u8]
    ensures { result.now ≡ spec.put address.now answer.now }
{
    match answer {
        Rewritten::Gives(text) => {
            if text.is_empty() || !is_line(text.bytes()) {
                return address.bytes();
            }
            text.bytes()
        }
        Rewritten::Refuses(_) => address.bytes(),
    }
}

// Whether a text has neither CR nor LF.
fn is_line(text: &[u8]) -> bool
    ensures { result ≡ list_all is_plain text.now }
{
    text.iter().all(|byte| is_plain(*byte))
}

fn is_plain(byte: u8) -> bool
    ensures { result ≡ is_plain byte }
{
    byte != b'\r' && byte != b'\n'
}
