//! The laws of pictures: what the choice of drawn events keeps.
ghost use Rattle.std.specs.Prelude.{◌≡◌, ◌<◌, ◌≤◌, ℕ, None, Option, Some, length, true};
ghost use Rattle.tso_ops.specs.Values.{TraceValue};
ghost use Rattle.tso_ops.specs.Events.{event_total};
ghost use Rattle.tso_cert.specs.declared.steps.Certificate.{Certificate};
ghost use Rattle.tso_cert.specs.declared.steps.Certificate.TheVariants.{Unwritten};
ghost use Rattle.trace_explanation.specs.Steps.{is_among};
ghost use Rattle.trace_pictures.specs.Choice.{drawn_events};
ghost use Rattle.trace_pictures.specs.Pictures.{field_picture, picture_text};

/// A picture draws at most 100 events.
pub fn pictures_are_small()
    ensures { (t : TraceValue) (c : Option Certificate) → length (drawn_events t c) ≤ 100 }
{}

/// A picture draws all events where there are at most 100.
pub fn all_are_drawn()
    ensures { (t : TraceValue) (c : Option Certificate) (n : ℕ) → event_total t ≤ 100 → 0 < n → n ≤ event_total t → is_among n (drawn_events t c) ≡ true }
{}

/// Without a cycle the picture with the names of the field is that with the names of rules.
pub fn pictures_without_a_cycle_are_the_same()
    ensures silent { (t : TraceValue) → field_picture t None ≡ picture_text t None }
    ensures unwritten { (t : TraceValue) (n : ℕ) → field_picture t (Some (Unwritten n)) ≡ picture_text t (Some (Unwritten n)) }
{}
