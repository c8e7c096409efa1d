ghost use Rattle.std.specs.Prelude.{◌≡◌, ◌≤◌, ℕ, Ok, Err, IfOk, IfErr};
ghost use Rattle.cf_values.specs.Numbers.{IsNumber};
ghost use Rattle.cf_values.specs.Refusals.{IsRefused};

use crate::Bad;
use crate::digit::{digit_of, with_digit};
use mail_base::Text;

/// The number that a text of digits writes, at most `most`. Zeros may stand in front, and there may
/// be any number of digits. It takes no memory. `Bad` has the place of the first byte that is no
/// digit, or the length of a text that is empty or whose number is above `most` (Sendmail
/// Installation and Operation Guide, "O: Set Option").
pub fn number(text: &Text, most: u64) -> Result<u64, Bad>
    ensures ok { IfOk result (λ n. IsNumber text.now n × (n ≤ most)) }
    ensures value { (n : ℕ) → IsNumber text.now n → n ≤ most → result ≡ Ok n }
    ensures bad { IfErr result (λ bad. IsRefused IsNumber most text.now bad.place) }
    ensures place { (place : ℕ) → IsRefused IsNumber most text.now place
        → result ≡ Err (record { place = place }) }
{
    number_of(text.bytes(), most)
}

fn number_of(text: &[u8], most: u64) -> Result<u64, Bad>
    ensures ok { IfOk result (λ n. IsNumber text.now n × (n ≤ most)) }
    ensures bad { IfErr result (λ bad. IsRefused IsNumber most text.now bad.place) }
{
    let above = most as u128 + 1;
    let mut number: u128 = 0;
    for (place, byte) in text.iter().enumerate() {
        let Some(digit) = digit_of(*byte) else {
            return Err(Bad {
                place: place as u64,
            });
        };
        number = with_digit(number, digit, above);
    }
    if text.is_empty() || number == above {
        return Err(Bad {
            place: text.len() as u64,
        });
    }
    Ok(number as u64)
}
