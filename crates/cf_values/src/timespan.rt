ghost use Rattle.std.specs.Prelude.{◌≡◌, ◌≤◌, ◌^◌, ℕ, Ok, Err, IfOk, IfErr};
ghost use Rattle.cf_values.specs.Times.{IsTime, IsLetter, last_unit};
ghost use Rattle.cf_values.specs.Refusals.{IsRefused};

use crate::Bad;
use crate::under_way::UnderWay;
use crate::unit::TimeUnit;
use mail_base::Text;

/// The seconds of a time, at most 2^60: numbers with one of the small letters `w`, `d`, `h`, `m`
/// and `s`, which add up, in any order and also where a letter comes twice. A last number without a
/// letter has the unit whose letter `unit` is. It takes no memory. `Bad` has the place of the first
/// byte with which no time goes on, or the length of a text that is empty or above 2^60 seconds
/// (Sendmail Installation and Operation Guide, "O: Set Option").
pub fn time(text: &Text, unit: u8) -> Result<u64, Bad>
    requires { IsLetter unit }
    ensures ok { IfOk result (λ n. IsTime (last_unit unit) text.now n × (n ≤ 2 ^ 60)) }
    ensures value { (n : ℕ) → IsTime (last_unit unit) text.now n → n ≤ 2 ^ 60 → result ≡ Ok n }
    ensures bad { IfErr result
        (λ bad. IsRefused (IsTime (last_unit unit)) (2 ^ 60) text.now bad.place) }
    ensures place { (place : ℕ) → IsRefused (IsTime (last_unit unit)) (2 ^ 60) text.now place
        → result ≡ Err (record { place = place }) }
{
    time_of(text.bytes(), TimeUnit::told(unit))
}

fn time_of(text: &[u8], unit: TimeUnit) -> Result<u64, Bad>
    ensures ok { IfOk result (λ n. IsTime unit text.now n × (n ≤ 2 ^ 60)) }
    ensures bad { IfErr result (λ bad. IsRefused (IsTime unit) (2 ^ 60) text.now bad.place) }
{
    let mut under_way = UnderWay::new();
    for (place, byte) in text.iter().enumerate() {
        let Some(next) = under_way.with(*byte) else {
            return Err(Bad {
                place: place as u64,
            });
        };
        under_way = next;
    }
    let seconds = under_way.total(unit);
    if text.is_empty() || seconds > 1 << 60 {
        return Err(Bad {
            place: text.len() as u64,
        });
    }
    Ok(seconds as u64)
}
