ghost use Rattle.flow_syntax.specs.Deprecated.{NoNameNoStatement};

/// A text in which no text in quotes stands after a name `deprecate` is read as it was before there was the statement of that name.
pub fn names_stay_names()
    ensures { NoNameNoStatement }
{}
