//! The transcript of a terminal.
ghost use Rattle.std.specs.Prelude.{◌≡◌, ◌+◌, ◌<◌, ◌^◌, OnErr, OnOk};
ghost use Rattle.hv_event.specs.declared.event.Event.{Event};
ghost use Rattle.hv_model.specs.Terminal.{IsNextStep, terminal_with};
ghost use Rattle.hv_rules.specs.Carry.{Carry};
ghost use Rattle.hv_terminals.specs.Terminal.{begins_with};
ghost use Rattle.hv_transcript.specs.Telling.{CanBeShown, IsNew, KeepsUp, TellsOn};

use crate::asked::show_asked;
use crate::kept::Kept;
use hv_answer::Reply;
use hv_step::Step;
use hv_terminals::{Begins, Terminal};
use hv_text::Bytes;
use std::alloc::{AllocError, Global};
use std::marker::Model;

/// What a terminal has shown, which contracts see with what is known of its present line.
#[derive(Drop)]
pub struct Transcript {
    text: Bytes,
    known: Kept,
}

impl Model for Transcript {
    ghost use Rattle.hv_transcript.specs.Telling.{TranscriptKept};
    ghost use Rattle.hv_transcript.specs.Kept.{transcript_of};

    ghost Value = { TranscriptKept };

    ghost view = { λ t. transcript_of t.text t.known };
}

impl Transcript {
    /// The transcript of a terminal that has shown nothing.
    pub fn new(alloc: Global) -> Transcript
        ensures { IsNew result }
    {
        Transcript {
            text: Bytes::from_vec(Vec::new(alloc)),
            known: Kept::of_none(),
        }
    }

    /// All that was shown.
    pub fn text(&self) -> &[u8]
        ensures { result.now ≡ self.now.text }
    {
        self.text.as_slice()
    }

    /// All that was shown, taken over.
    pub fn into_text(self) -> Bytes
        ensures { result ≡ self.text }
    {
        let Transcript { text, known: _ } = self;
        text
    }

    /// Shows the next step of a terminal, which was due with what it begins, and its reply; the
    /// terminal takes the reply afterwards. When memory runs out, part of the text may stand.
    pub fn show(
        &mut self,
        alloc: Global,
        terminal: &Terminal<'_>,
        begins: &Begins,
        step: &Step,
        reply: &Reply,
    ) -> Result<(), AllocError>
        requires keeps_up { KeepsUp self.old terminal.now.terminal }
        requires count { terminal.now.terminal.count + 1 < 2 ^ 64 }
        requires begins { begins.now ≡ begins_with terminal.now.terminal }
        requires next { (c : Carry) × IsNextStep terminal.now.terminal terminal.now.terminal.owed
            step.now reply.now c }
        requires shown { CanBeShown begins.now step.now reply.now }
        ensures tells { OnOk result ((e : Event) → e.step ≡ step.now → e.reply ≡ reply.now
            → TellsOn terminal.now.terminal self.old self.new e) }
        ensures keeps_up { OnOk result ((c : Carry) → KeepsUp self.new
            (terminal_with terminal.now.terminal terminal.now.terminal.owed step.now reply.now c)) }
        ensures kept { OnErr result (KeepsUp self.new terminal.now.terminal) }
    {
        if terminal.owes_nothing() {
            self.known = show_asked(
                alloc,
                &mut self.text,
                &self.known,
                terminal,
                begins,
                step,
                reply,
            )?;
            return Ok(());
        }
        Ok(())
    }
}
