ghost use Rattle.std.specs.Prelude.{◌≡◌, ◌++◌, ◌∷◌, List};
ghost use Rattle.mail_base.specs.declared.control.Row.{Row};
ghost use Rattle.dsn_bounce.specs.declared.topic.Topic.{Topic};
ghost use Rattle.dsn_bounce.specs.Rows.{told_of, told_rows};

/// A message tells of each row in the row's own place, once: before it what is told of the rows
/// before, behind it what is told of those behind. So a bounce names each row that failed, with its
/// status and note, once and in order, and no other.
pub fn rows_are_told_in_order()
    ensures { (topic : Topic) (front back : List Row) (row : Row)
        → told_rows topic (front ++ row ∷ back)
        ≡ told_rows topic front ++ (told_of topic row ++ told_rows topic back) }
{}
