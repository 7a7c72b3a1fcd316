//! What a picture shows beside its trace.
ghost use Rattle.std.specs.Prelude.{◌≡◌};
ghost use Rattle.trace_pictures.specs.Contents.{content_of};

use crate::captions::Caption;
use crate::edge_names::EdgeNames;
use std::marker::Model;
use tso_cert::Certificate;

/// A certificate or none, the cycle that is drawn, empty where there is none, an order in which events have numbers, empty where
/// they have none, the caption, and which names the cycle's edges have.
#[derive(Debug, Drop)]
pub(crate) struct Content<'c> {
    certificate: &'c Option<Certificate>,
    cycle: &'c [u64],
    order: &'c [u64],
    caption: Caption,
    edges: EdgeNames,
}

impl<'c> Model for Content<'c> {
    ghost use Rattle.trace_pictures.specs.Contents.{ContentValue};

    ghost Value = { ContentValue };

    ghost view = { λ c. record { certificate = c.certificate.now; cycle = c.cycle.now; order = c.order.now; caption = c.caption; edges = c.edges } };
}

impl<'c> Content<'c> {
    /// These five.
    pub(crate) fn new(
        certificate: &'c Option<Certificate>,
        cycle: &'c [u64],
        order: &'c [u64],
        caption: Caption,
        edges: EdgeNames,
    ) -> Content<'c>
        ensures { result ≡ content_of certificate.now cycle.now order.now caption edges }
    {
        Content {
            certificate,
            cycle,
            order,
            caption,
            edges,
        }
    }

    /// The certificate.
    pub(crate) fn certificate(&self) -> &'c Option<Certificate>
        ensures { result.now ≡ self.now.certificate }
    {
        self.certificate
    }

    /// The cycle that is drawn.
    pub(crate) fn cycle(&self) -> &'c [u64]
        ensures { result.now ≡ self.now.cycle }
    {
        self.cycle
    }

    /// The order in which events have numbers.
    pub(crate) fn order(&self) -> &'c [u64]
        ensures { result.now ≡ self.now.order }
    {
        self.order
    }

    /// The caption.
    pub(crate) fn caption(&self) -> Caption
        ensures { result ≡ self.now.caption }
    {
        self.caption
    }

    /// Which names the cycle's edges have.
    pub(crate) fn edges(&self) -> EdgeNames
        ensures { result ≡ self.now.edges }
    {
        self.edges
    }
}
