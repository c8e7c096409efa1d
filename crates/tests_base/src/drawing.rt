ghost use Rattle.std.specs.Prelude.{◌≡◌, IfOk};
ghost use Rattle.tests_base.specs.Rows.{row_of};

use mail_base::{Draw, Draws, JudgeFault, NoMemory, Resolved, Seq, Text, Triple, TryCopy};
use std::alloc::Global;

/// Draws the receiver itself, and tells so.
#[derive(Drop)]
pub struct Itself;

impl Draws for Itself {
    ghost use Rattle.std.specs.Prelude.{◌≡◌, ◌∷◌, [], true, map};
    ghost use Rattle.tests_base.specs.Rows.{rows_of};

    ghost seen = { λ _. record { faults = 0; tells = true } };

    ghost answers = { λ _ address rows. rows ≡ rows_of address };

    ghost fixed = { λ _. tt };

    #[tactic(auto, unfolding(mail_base::specs::Limits::most_rows))]
    fn draw(&mut self, alloc: Global, address: &Text) -> Result<Seq<Draw>, JudgeFault> {
        let mut rows = Seq::new(alloc);
        rows.push(row_of(alloc, address)?)?;
        Ok(rows)
    }
}

fn row_of(alloc: Global, address: &Text) -> Result<Draw, NoMemory>
    ensures { IfOk result (λ row. row ≡ row_of address.now) }
{
    let user = address.copy()?;
    Ok(Draw {
        address: address.copy()?,
        sender: Text::of(alloc, b"<>")?,
        primary: true,
        resolved: Resolved::Goes(Triple {
            mailer: Text::new(alloc),
            host: Text::new(alloc),
            user,
        }),
    })
}
