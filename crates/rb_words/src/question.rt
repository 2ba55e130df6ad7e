//! The words that ask something of the program itself. `main` looks for them before anything is done with a file.
ghost use Rattle.std.specs.Prelude.{◌≡◌, ◌≢◌, ◌∷◌, []};
ghost use Rattle.std.specs.Prelude.{IfSome, IfNone};
ghost use Rattle.rb_words.specs.Words.{AskFor, texts};
ghost use Rattle.rb_words.specs.Questions.{question_word};
ghost use Rattle.rb_words.specs.declared.question.Question.{Question};
ghost use Rattle.rb_words.specs.declared.words.Request.{Request};

/// What is asked of the program itself.
#[derive(Clone, Copy, Debug, PartialEq, Eq)]
pub enum Question {
    /// Which program it is.
    Version,
    /// Which words it takes.
    Help,
}

/// What the words ask of the program itself: `--version` or `--help`, with no other word. They name no file, so they
/// ask for nothing that a run does.
pub fn parse_question(words: &[String]) -> Option<Question>
    ensures found { IfSome result (λ question. texts words.now ≡ question_word question ∷ []) }
    ensures none { IfNone result ((question : Question) → texts words.now ≢ question_word question ∷ []) }
    ensures no_request { IfSome result (λ question. (request : Request) → ¬ AskFor words.now request) }
{
    let [word] = words else {
        return None;
    };
    match word.as_str() {
        "--version" => Some(Question::Version),
        "--help" => Some(Question::Help),
        _ => None,
    }
}
