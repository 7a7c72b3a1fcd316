//! Pictures as a rendering of what is found of a trace.
ghost use Rattle.std.specs.Prelude.{refl};
ghost use Rattle.trace_reports.specs.Reports.{rendered_refusal};
ghost use Rattle.trace_pictures.specs.Pictured.{field_pictured, pictured};

use crate::pictures::{draw, draw_field};
use std::alloc::Global;
use trace_reports::{AsReport, Finding, Rendering};
use tso_ops::{OutOfMemory, Trace};
use tso_text::TextFault;

/// The picture of a trace; or the line of a refusal.
#[derive(Clone, Copy)]
pub struct AsPicture;

impl Rendering<Trace, Finding> for AsPicture {
    ghost rendered = { λ form. pictured };

    ghost refused = { λ form. rendered_refusal };

    fn text_of_found(
        &self,
        alloc: Global,
        trace: &Trace,
        finding: &Finding,
    ) -> Result<String, OutOfMemory> {
        let mut text = String::new(alloc);
        draw(alloc, &mut text, trace, &finding.certificate)?;
        Ok(text)
    }

    fn text_of_refusal(
        &self,
        alloc: Global,
        input: &[u8],
        fault: TextFault,
    ) -> Result<String, OutOfMemory> {
        AsReport.text_of_refusal(alloc, input, fault)
    }

    ghost whole = { λ form a b why. refl };
}

/// The picture of a trace with the names of the field at the edges of the cycle; or the line of a refusal.
#[derive(Clone, Copy)]
pub struct AsFieldPicture;

impl Rendering<Trace, Finding> for AsFieldPicture {
    ghost rendered = { λ form. field_pictured };

    ghost refused = { λ form. rendered_refusal };

    fn text_of_found(
        &self,
        alloc: Global,
        trace: &Trace,
        finding: &Finding,
    ) -> Result<String, OutOfMemory> {
        let mut text = String::new(alloc);
        draw_field(alloc, &mut text, trace, &finding.certificate)?;
        Ok(text)
    }

    fn text_of_refusal(
        &self,
        alloc: Global,
        input: &[u8],
        fault: TextFault,
    ) -> Result<String, OutOfMemory> {
        AsReport.text_of_refusal(alloc, input, fault)
    }

    ghost whole = { λ form a b why. refl };
}
