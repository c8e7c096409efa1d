ghost use Rattle.std.specs.Prelude.{◌≡◌, ◌↔◌, List, ℕ, Some};
ghost use Rattle.cf_values.specs.Numbers.{IsNumber, number_value};
ghost use Rattle.cf_values.specs.Times.{IsTime, last_unit, time_value};

/// A text means one number at most, and one number of seconds.
pub fn one_meaning()
    ensures number { (text : List ℕ) (n m : ℕ) → IsNumber text n → IsNumber text m → n ≡ m }
    ensures time { (unit : ℕ) (text : List ℕ) (n m : ℕ) → IsTime (last_unit unit) text n
        → IsTime (last_unit unit) text m → n ≡ m }
{}

/// The number that is computed of a text, and the seconds, are those that the text means; where
/// none are computed it means none.
pub fn computed_values()
    ensures number { (text : List ℕ) (n : ℕ) → (number_value text ≡ Some n) ↔ IsNumber text n }
    ensures time { (unit : ℕ) (text : List ℕ) (n : ℕ)
        → (time_value unit text ≡ Some n) ↔ IsTime (last_unit unit) text n }
{}
