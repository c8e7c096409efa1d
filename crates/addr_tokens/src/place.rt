ghost use Rattle.std.specs.Prelude.{◌≡◌, ◌+◌, ◌<◌, ◌≤◌, ◌^◌, length};
ghost use Rattle.addr_tokens.specs.Separators as spec;
ghost use Rattle.addr_tokens.specs.Separators.{after, after_plain, length_to, separates};

/// Where a byte of a list of addresses stands: in quotes, comments or angles, or in none (RFC 5322,
/// sections 3.2.1, 3.2.2, 3.2.4 and 3.4).
#[derive(Clone, Copy)]
pub struct Place {
    /// Whether in double quotes.
    pub quoted: bool,
    /// Whether behind a backslash that quotes it.
    pub escaped: bool,
    /// How many comments are open.
    pub comments: usize,
    /// How many angles are open.
    pub angles: usize,
}

impl Place {
    /// Where a text begins.
    pub fn outside() -> Place
        ensures { result ≡ spec.outside }
    {
        Place {
            quoted: false,
            escaped: false,
            comments: 0,
            angles: 0,
        }
    }

    /// Whether outside of quotes, comments and angles, and behind no backslash.
    pub fn is_outside(self) -> bool
        ensures { result ≡ spec.is_outside self }
    {
        !self.quoted && !self.escaped && self.comments == 0 && self.angles == 0
    }

    /// Where the byte behind this one stands.
    pub fn after(self, byte: u8) -> Place
        requires comments { self.comments + 1 < 2 ^ 64 }
        requires angles { self.angles + 1 < 2 ^ 64 }
        ensures { result ≡ after self byte }
    {
        if self.escaped {
            let escaped = false;
            return Place { escaped, ..self };
        }
        if byte == b'\\' {
            let escaped = true;
            return Place { escaped, ..self };
        }
        if self.quoted {
            let quoted = byte != b'"';
            return Place { quoted, ..self };
        }
        self.after_plain(byte)
    }

    // Where the byte behind one stands that isn't quoted and is no backslash.
    fn after_plain(self, byte: u8) -> Place
        requires comments { self.comments + 1 < 2 ^ 64 }
        requires angles { self.angles + 1 < 2 ^ 64 }
        ensures { result ≡ after_plain self byte }
    {
        if byte == b'(' {
            let comments = self.comments + 1;
            return Place { comments, ..self };
        }
        if self.comments > 0 {
            let comments = self.comments - usize::from(byte == b')');
            return Place { comments, ..self };
        }
        match byte {
            b'"' => Place {
                quoted: true,
                ..self
            },
            b'<' => Place {
                angles: self.angles + 1,
                ..self
            },
            b'>' => Place {
                angles: self.angles.saturating_sub(1),
                ..self
            },
            _ => self,
        }
    }
}

/// What parts a list of addresses.
#[derive(Clone, Copy)]
pub enum Separator {
    /// Between two members.
    Comma,
    /// Behind a name.
    Colon,
}

impl Separator {
    // Whether a byte at a place is the separator.
    fn separates(self, place: Place, byte: u8) -> bool
        ensures { result ≡ separates self place byte }
    {
        match self {
            Separator::Comma => byte == b',' && place.is_outside(),
            Separator::Colon => byte == b':' && !place.quoted && !place.escaped,
        }
    }

    /// How many bytes of a text stand before the first separator.
    pub fn length_to(self, text: &[u8]) -> usize
        ensures length { result ≡ length_to self spec.outside text.now }
        ensures within { result ≤ length text.now }
    {
        let mut place = Place::outside();
        for (index, byte) in text.iter().enumerate() {
            if self.separates(place, *byte) {
                return index;
            }
            place = place.after(*byte);
        }
        text.len()
    }
}
