ghost use Rattle.std.specs.Prelude.{◌≡◌};

use flow_syntax::{Constructor, EnumDecl, FunctionDecl, Named, PropDecl, PropRule, TableDecl};

/// What a specification declares with a name, or says of a name.
pub trait Declared {
    ghost use Rattle.flow_syntax.specs.declared.spec.Named.{Named as Name};

    // The name.
    ghost declared: { Self → Name };

    /// The name that it is declared with.
    fn declared_name(&self) -> &Named
        ensures { result.now ≡ declared self.now };
}

impl Declared for Named {
    ghost declared = { λ n. n };

    fn declared_name(&self) -> &Named {
        self
    }
}

impl Declared for EnumDecl {
    ghost declared = { λ d. d.name };

    fn declared_name(&self) -> &Named {
        &self.name
    }
}

impl Declared for TableDecl {
    ghost declared = { λ d. d.name };

    fn declared_name(&self) -> &Named {
        &self.name
    }
}

impl Declared for FunctionDecl {
    ghost declared = { λ d. d.name };

    fn declared_name(&self) -> &Named {
        &self.name
    }
}

impl Declared for PropDecl {
    ghost declared = { λ d. d.name };

    fn declared_name(&self) -> &Named {
        &self.name
    }
}

impl Declared for Constructor {
    ghost declared = { λ d. d.name };

    fn declared_name(&self) -> &Named {
        &self.name
    }
}

/// A rule goes by the name of its property.
impl Declared for PropRule {
    ghost declared = { λ r. r.property };

    fn declared_name(&self) -> &Named {
        &self.property
    }
}
