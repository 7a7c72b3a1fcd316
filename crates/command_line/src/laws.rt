//! Laws on what `clap` makes of the arguments after the name of a subcommand, for the proofs of this crate.

ghost use Rattle.std.specs.Prelude.{◌≡◌, true, false, List, [], ◌∷◌, map, Option};
ghost use Rattle.std.specs.Borrow.{Bor};
ghost use Rattle.std.specs.List.{list_all};
ghost use Rattle.clap.specs.Faults.{level_fault};
ghost use Rattle.clap.specs.Simple.{Shape};
ghost use Rattle.clap.specs.Values.{refused_kind};
ghost use Rattle.clap.specs.Walk.{Text, nothing_held, rows_after};
ghost use Rattle.clap.specs.declared.error.kind.ErrorKind.TheVariants.{MissingRequiredArgument};
ghost use Rattle.command_line.specs.Offered.{Offers, parameter_text_in, several_in};
ghost use Rattle.command_line.specs.Parameters.{Parameter, Values, parser_of, takes_default};
ghost use Rattle.command_line.specs.Spelled.{Give, HaveWrongValue, LeaveOut, in_memory, names_at};

/// Arguments that give texts to the parameters of a subcommand are taken, and its matches have these texts, and those of the
/// parameter of which there may be several.
pub fn given_arguments_are_taken()
    ensures taken { (s : Shape) (parameters : List (Parameter (Bor (List (Bor Text))))) → Offers in_memory s parameters →
        list_all (takes_default names_at) parameters ≡ true
        → (arguments : List Text) (texts : List (Option Text)) (more : List Text) → Give names_at parameters arguments texts more
        → level_fault s [] nothing_held arguments false [] ≡ [] }
    ensures texts { (s : Shape) (parameters : List (Parameter (Bor (List (Bor Text))))) → Offers in_memory s parameters →
        list_all (takes_default names_at) parameters ≡ true
        → (arguments : List Text) (texts : List (Option Text)) (more : List Text) → Give names_at parameters arguments texts more
        → map (parameter_text_in (rows_after s.rules [] arguments)) parameters ≡ texts }
    ensures several { (s : Shape) (parameters : List (Parameter (Bor (List (Bor Text))))) → Offers in_memory s parameters →
        list_all (takes_default names_at) parameters ≡ true
        → (arguments : List Text) (texts : List (Option Text)) (more : List Text) → Give names_at parameters arguments texts more
        → several_in (rows_after s.rules [] arguments) parameters ≡ more }
{}

/// Arguments that leave out a parameter which may not be left out are refused for that.
pub fn parameters_left_out_are_refused()
    ensures { (s : Shape) (parameters : List (Parameter (Bor (List (Bor Text))))) → Offers in_memory s parameters →
        list_all (takes_default names_at) parameters ≡ true
        → (arguments : List Text) → LeaveOut names_at parameters arguments
        → level_fault s [] nothing_held arguments false [] ≡ MissingRequiredArgument ∷ [] }
{}

/// Arguments of which an option has a value that it doesn't take are refused for that value.
pub fn wrong_values_are_refused()
    ensures { (s : Shape) (parameters : List (Parameter (Bor (List (Bor Text))))) → Offers in_memory s parameters →
        list_all (takes_default names_at) parameters ≡ true
        → (arguments : List Text) → HaveWrongValue names_at parameters arguments
        → (values : Values (Bor (List (Bor Text)))) × (level_fault s [] nothing_held arguments false [] ≡ refused_kind (parser_of in_memory values) ∷ []) }
{}
