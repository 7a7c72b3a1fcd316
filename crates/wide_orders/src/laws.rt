//! What an order of accesses with widths says of the pieces of these accesses, proved of all values.

ghost use Rattle.std.specs.Prelude.{◌≡◌, ℕ, false, List, []};
ghost use Rattle.std.specs.List.{Contains, flat_map};
ghost use Rattle.run_lines.specs.declared.arguments.Widths.{Widths};
ghost use Rattle.tso_model.specs.Axioms.{IsConsistent};
ghost use Rattle.log_text.specs.declared.lines.SaidLine.{SaidLine};
ghost use Rattle.log_text.specs.LogTexts.{log_of_lines, places_of_text, SpellsLog, unknown_in};
ghost use Rattle.log_text.specs.LogValues.{NumberedLog, log_operations};
ghost use Rattle.log_text.specs.Splits.{has_bytes, split_lines};
ghost use Rattle.wide_orders.specs.WideOrders.{AreWideLines, HasWideOrder, plain_lines};

/// Where the accesses of these lines have an order in which each is single, the log of their pieces has an order of its memory model.
pub fn split_logs_keep_orders()
    ensures { (widths : Widths) (lines : List SaidLine) → AreWideLines widths lines → HasWideOrder lines →
        IsConsistent (log_operations (log_of_lines (split_lines widths lines))) }
{}

/// Where all places are locations, and the accesses have an order, the log has one. Where the log has one, and no line is `un`, the accesses have one.
pub fn location_orders_are_wide()
    ensures kept { (lines : List SaidLine) → ((s : SaidLine) → Contains lines s → s.width ≡ 0) → HasWideOrder lines → IsConsistent (log_operations (log_of_lines (plain_lines lines))) }
    ensures back { (lines : List SaidLine) → ((s : SaidLine) → Contains lines s → s.width ≡ 0) → flat_map unknown_in (plain_lines lines) ≡ [] →
        IsConsistent (log_operations (log_of_lines (plain_lines lines))) → HasWideOrder lines }
{}

/// Where a text spells a log, its lines have widths as its places are. So where their accesses have an order in which each is single, the log has one. Where the
/// text has no bytes, the log has one, and no line is `un`, the accesses have one.
pub fn texts_keep_orders()
    ensures wide { (text : List ℕ) (log : NumberedLog) (spells : SpellsLog text log) → AreWideLines (places_of_text text) spells.lines }
    ensures kept { (text : List ℕ) (log : NumberedLog) (spells : SpellsLog text log) → HasWideOrder spells.lines → IsConsistent (log_operations log) }
    ensures back { (text : List ℕ) (log : NumberedLog) (spells : SpellsLog text log) → has_bytes (places_of_text text) ≡ false →
        flat_map unknown_in (plain_lines spells.lines) ≡ [] → IsConsistent (log_operations log) → HasWideOrder spells.lines }
{}
