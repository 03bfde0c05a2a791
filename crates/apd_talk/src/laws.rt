//! Laws of conversations, each the contract of a function without a body.

ghost use Rattle.std.specs.Prelude.{◌≡◌, List};
ghost use Rattle.apd_console.specs.declared.line.Line.{Line};
ghost use Rattle.apd_console.specs.Lines.{Close};
ghost use Rattle.apd_talk.specs.Talk.{Said, Talker, run};
ghost use Rattle.apd_talk.specs.Awaiting.{Awaits, Turn, await};

/// The law of waiting: where a talker takes the turns of a question that waits, it says what is said while that question waits.
pub fn a_talker_awaits<E, S>()
    ensures { (talker : Talker E S) (s : S) (turn : Line → Turn E) (closed : Close → Said E) →
        Awaits talker s turn closed →
        (lines : List Line) (close : Close) → run talker s lines close ≡ await turn closed lines close }
{}
