//! The forms in which is rendered what is found of a run.
ghost use Rattle.std.specs.Prelude.{refl};
ghost use Rattle.run_following.specs.JsonLines.{refused_json, run_json};
ghost use Rattle.run_following.specs.Words.{refused_words, run_words};

use crate::found::RunFound;
use crate::json_lines::{render_json, render_refused_json};
use crate::words::{render_refused_words, render_words};
use std::alloc::Global;
use trace_reports::Rendering;
use tso_ops::OutOfMemory;
use tso_text::TextFault;

/// The report: the lines that are no steps, and the lines that show it; or the line of a refusal.
#[derive(Clone, Copy)]
pub struct AsRunWords {
    /// Whether a sentence explains each line that is no step.
    pub is_explained: bool,
}

/// The report, in one line of JSON.
#[derive(Clone, Copy)]
pub struct AsRunJson {
    /// Whether a sentence explains each line that is no step.
    pub is_explained: bool,
}

impl Rendering<(), RunFound> for AsRunWords {
    ghost rendered = { λ form run. run_words form.is_explained };

    ghost refused = { λ form text. refused_words };

    fn text_of_found(
        &self,
        alloc: Global,
        _run: &(),
        found: &RunFound,
    ) -> Result<String, OutOfMemory> {
        render_words(alloc, found, self.is_explained)
    }

    fn text_of_refusal(
        &self,
        alloc: Global,
        _input: &[u8],
        fault: TextFault,
    ) -> Result<String, OutOfMemory> {
        render_refused_words(alloc, fault)
    }

    ghost whole = { λ _ a b why. refl };
}

impl Rendering<(), RunFound> for AsRunJson {
    ghost rendered = { λ form run. run_json form.is_explained };

    ghost refused = { λ form text. refused_json };

    fn text_of_found(
        &self,
        alloc: Global,
        _run: &(),
        found: &RunFound,
    ) -> Result<String, OutOfMemory> {
        render_json(alloc, found, self.is_explained)
    }

    fn text_of_refusal(
        &self,
        alloc: Global,
        _input: &[u8],
        fault: TextFault,
    ) -> Result<String, OutOfMemory> {
        render_refused_json(alloc, fault)
    }

    ghost whole = { λ _ a b why. refl };
}
