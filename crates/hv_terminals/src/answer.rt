//! What a run is answered.
ghost use Rattle.std.specs.Prelude.{◌≡◌, ◌≢◌, Option, Err, List};
ghost use Rattle.hv_terminals.specs.Answer.{AnswersRun, lines_found};
ghost use Rattle.hv_terminals.specs.Due.{RunFits};

use hv_refusal::Refusal;
use hv_text::Bytes;
use hv_words::count_lines;

/// What a run is answered, and how many lines its script has, where there is one.
#[derive(Drop)]
pub struct RunAnswer {
    pub reply: Result<Bytes, Refusal>,
    pub lines: Option<u64>,
}

// What a run is answered by a script that is found.
fn answer_found(script: Bytes, room: Option<u64>) -> RunAnswer
    ensures answer { AnswersRun (Ok script) result.reply }
    ensures lines { result.lines ≡ lines_found (Ok script) }
    ensures fits { RunFits room result.lines result.reply }
{
    let lines = count_lines(script.as_slice()) as u64;
    let reply = match room {
        None => Err(Refusal::TooDeep),
        Some(room) => {
            if lines > room {
                Err(Refusal::TooLong)
            } else {
                Ok(script)
            }
        }
    };
    RunAnswer {
        reply,
        lines: Some(lines),
    }
}

/// What a run is answered, by what the files found, where a script may have so many lines; none
/// where too many are open.
pub fn answer_run(found: Result<Bytes, Refusal>, room: Option<u64>) -> RunAnswer
    requires not_deep { found ≢ Err Refusal.TooDeep }
    ensures answer { AnswersRun found result.reply }
    ensures lines { result.lines ≡ lines_found found }
    ensures fits { RunFits room result.lines result.reply }
{
    match found {
        Ok(script) => answer_found(script, room),
        Err(why) => {
            let reply = match room {
                None => Err(Refusal::TooDeep),
                Some(_) => Err(why),
            };
            RunAnswer { reply, lines: None }
        }
    }
}
