ghost use Rattle.std.specs.Prelude.{◌≡◌, ℕ, List, Some};
ghost use Rattle.mail_base.specs.declared.draw.Draw.{Draw};
ghost use Rattle.smtp_receive.specs.Judging.{Question, Said};
ghost use Rattle.mail_edge.specs.Seen.{FileMap};
ghost use Rattle.mail_judge.specs.Judged.{Grounds, IsJudged};
ghost use Rattle.mail_judge.specs.Returned.{ReturnsTo};

use addr_route::{one_check, one_route, some_rewriting, some_route};
use alias_expand::{one_expansion, some_expansion};

/// Rules say one thing alone of a question, where the files are told.
pub fn one_judgement()
    ensures { (grounds : Grounds) (files : FileMap) (question : Question) (one another : Said)
        → IsJudged grounds (Some files) question one
        → IsJudged grounds (Some files) question another → one ≡ another }
{
    // Laws: a check has one answer, and an address comes to one outcome.
    one_check();
    one_expansion();
}

/// Rules say something of each question, whatever they stand on, where the files are told.
pub fn each_question_is_judged()
    ensures { (grounds : Grounds) (files : FileMap) (question : Question)
        → (said : Said) × IsJudged grounds (Some files) question said }
{
    // Laws: sets give something of an address, and it comes to an outcome.
    some_rewriting();
    some_expansion();
}

/// A receiver of returned mail has one list of rows alone, where the files are told.
pub fn one_return()
    ensures { (grounds : Grounds) (files : FileMap) (address : List ℕ) (one another : List Draw)
        → ReturnsTo grounds (Some files) address one
        → ReturnsTo grounds (Some files) address another → one ≡ another }
{
    // Laws: an address comes to one outcome, and has one route.
    one_expansion();
    one_route();
}

/// Each receiver has rows, whatever they stand on, where the files are told.
pub fn each_receiver_has_rows()
    ensures { (grounds : Grounds) (files : FileMap) (address : List ℕ)
        → (rows : List Draw) × ReturnsTo grounds (Some files) address rows }
{
    // Laws: an address comes to an outcome, and has a route.
    some_expansion();
    some_route();
}
