//! A script that is run.
ghost use Rattle.std.specs.Prelude.{◌≡◌, ◌≢◌, ◌≤◌, ◌<◌, ◌+◌, ℕ, List, Ok, Err, Some, None, OnOk, nat_le, length};
ghost use Rattle.hv_text.specs.declared.limits.TheConstants.{MOST_LINES, OPEN_SCRIPTS};
ghost use Rattle.hv_words.specs.Words.{commands_of};
ghost use Rattle.hv_model.specs.Session.{Task, scripts_of};
ghost use Rattle.hv_model.specs.Terminal.{RunAnswers};
ghost use Rattle.hv_rounds.specs.Answer.{AnswersScript, IsOpened, MayOpen, RunOpens};

use crate::terminal::Terminal;
use hv_event::Refusal;
use hv_text::{Bytes, MOST_LINES, OPEN_SCRIPTS};
use hv_words::{Script, count_lines};
use std::alloc::{AllocError, Global};

/// What a run is answered, and how many lines its script has, where there is one.
#[derive(Drop)]
pub struct RunAnswer {
    pub reply: Result<Bytes, Refusal>,
    pub lines: Option<u64>,
}

/// What a run is answered, by what the files found.
pub fn answer_run(found: Result<Bytes, Refusal>, depth: usize, so_far: u64) -> RunAnswer
    requires bounded { so_far ≤ MOST_LINES }
    requires not_deep { found ≢ Err Refusal.TooDeep }
    ensures found { AnswersScript found result.reply result.lines }
    ensures answers { RunAnswers (nat_le OPEN_SCRIPTS depth) so_far result.lines result.reply }
    ensures opens { MayOpen so_far result.reply result.lines }
{
    let script = match found {
        Ok(script) => script,
        Err(why) => return answer_missing(why, depth),
    };
    let lines = count_lines(script.as_slice()) as u64;
    let reply = if depth >= OPEN_SCRIPTS {
        Err(Refusal::TooDeep)
    } else if lines > MOST_LINES as u64 - so_far {
        Err(Refusal::TooLong)
    } else {
        Ok(script)
    };
    RunAnswer {
        reply,
        lines: Some(lines),
    }
}

fn answer_missing(why: Refusal, depth: usize) -> RunAnswer
    requires not_deep { why ≢ Refusal.TooDeep }
    ensures found { AnswersScript (Err why) result.reply result.lines }
    ensures answers { (so_far : ℕ) → RunAnswers (nat_le OPEN_SCRIPTS depth) so_far result.lines result.reply }
{
    let reply = if depth >= OPEN_SCRIPTS {
        Err(Refusal::TooDeep)
    } else {
        Err(why)
    };
    RunAnswer { reply, lines: None }
}

impl Terminal {
    /// How many scripts are open where its command came from.
    pub fn depth(&self) -> usize
        ensures { (task : Task) → result ≡ length (scripts_of (record { task = task; boot = self.now.boot; own = self.now.own })) }
    {
        match self.boot.depth() {
            0 => self.own.depth(),
            depth => depth,
        }
    }

    /// Opens a script within the command's.
    pub fn open(&mut self, alloc: Global, script: &[u8], lines: u64) -> Result<(), AllocError>
        requires { self.old.lines + lines ≤ MOST_LINES }
        ensures ok { OnOk result (IsOpened self.old self.new (commands_of script.now) lines) }
        ensures shown { self.new.shown ≡ self.old.shown }
    {
        let script = Script::new(Bytes::from_vec(Vec::from_slice(alloc, script)?));
        if self.boot.depth() == 0 {
            self.own.open(script)?;
        } else {
            self.boot.open(script)?;
        }
        self.lines += lines;
        Ok(())
    }

    /// Opens the script that a run is answered by, if it is.
    pub fn open_answered(&mut self, alloc: Global, answer: &RunAnswer) -> Result<(), AllocError>
        requires { MayOpen self.old.lines answer.now.reply answer.now.lines }
        ensures ok { OnOk result (RunOpens self.old self.new answer.now.reply) }
        ensures shown { self.new.shown ≡ self.old.shown }
    {
        match &answer.reply {
            Ok(script) => self.open(alloc, script.as_slice(), answer.lines.unwrap_or(0)),
            Err(_) => Ok(()),
        }
    }
}
