//! Declarations, and the parts of other statements that aren't expressions.

use crate::syntax::Syntax;
use hep_source::{
    CommonBlock, DataConstant, DataGroup, DataValue, Declarator, Dimension, ImplicitGroup,
    LetterRange, NamedConstant, Repeat, Target, UpperBound,
};
use std::alloc::{AllocError, Global};

impl Syntax for LetterRange {
    fn copy(&self, _alloc: Global) -> Result<LetterRange, AllocError> {
        Ok(*self)
    }

    fn same(&self, other: &LetterRange) -> bool {
        self == other
    }
}

impl Syntax for ImplicitGroup {
    fn copy(&self, alloc: Global) -> Result<ImplicitGroup, AllocError> {
        Ok(ImplicitGroup {
            value_type: self.value_type,
            letters: self.letters.copy(alloc)?,
        })
    }

    fn same(&self, other: &ImplicitGroup) -> bool {
        self.value_type == other.value_type && self.letters.same(&other.letters)
    }
}

impl Syntax for UpperBound {
    fn copy(&self, alloc: Global) -> Result<UpperBound, AllocError> {
        match self {
            UpperBound::Expression(bound) => Ok(UpperBound::Expression(bound.copy(alloc)?)),
            UpperBound::Open => Ok(UpperBound::Open),
        }
    }

    fn same(&self, other: &UpperBound) -> bool {
        match (self, other) {
            (UpperBound::Expression(a), UpperBound::Expression(b)) => a.same(b),
            (UpperBound::Open, UpperBound::Open) => true,
            _ => false,
        }
    }
}

impl Syntax for Dimension {
    fn copy(&self, alloc: Global) -> Result<Dimension, AllocError> {
        Ok(Dimension {
            lower: self.lower.copy(alloc)?,
            upper: self.upper.copy(alloc)?,
        })
    }

    fn same(&self, other: &Dimension) -> bool {
        self.lower.same(&other.lower) && self.upper.same(&other.upper)
    }
}

impl Syntax for Declarator {
    fn copy(&self, alloc: Global) -> Result<Declarator, AllocError> {
        Ok(Declarator {
            occurrence: self.occurrence,
            dimensions: self.dimensions.copy(alloc)?,
        })
    }

    fn same(&self, other: &Declarator) -> bool {
        self.occurrence == other.occurrence && self.dimensions.same(&other.dimensions)
    }
}

impl Syntax for CommonBlock {
    fn copy(&self, alloc: Global) -> Result<CommonBlock, AllocError> {
        Ok(CommonBlock {
            block: self.block,
            entries: self.entries.copy(alloc)?,
        })
    }

    fn same(&self, other: &CommonBlock) -> bool {
        self.block == other.block && self.entries.same(&other.entries)
    }
}

impl Syntax for NamedConstant {
    fn copy(&self, alloc: Global) -> Result<NamedConstant, AllocError> {
        Ok(NamedConstant {
            occurrence: self.occurrence,
            value: self.value.copy(alloc)?,
        })
    }

    fn same(&self, other: &NamedConstant) -> bool {
        self.occurrence == other.occurrence && self.value.same(&other.value)
    }
}

impl Syntax for Target {
    fn copy(&self, alloc: Global) -> Result<Target, AllocError> {
        Ok(Target {
            occurrence: self.occurrence,
            subscripts: self.subscripts.copy(alloc)?,
        })
    }

    fn same(&self, other: &Target) -> bool {
        self.occurrence == other.occurrence && self.subscripts.same(&other.subscripts)
    }
}

impl Syntax for Repeat {
    fn copy(&self, _alloc: Global) -> Result<Repeat, AllocError> {
        Ok(*self)
    }

    fn same(&self, other: &Repeat) -> bool {
        match (self, other) {
            (Repeat::Count(a), Repeat::Count(b)) => a == b,
            (Repeat::Named(a), Repeat::Named(b)) => a == b,
            _ => false,
        }
    }
}

impl Syntax for DataConstant {
    fn copy(&self, _alloc: Global) -> Result<DataConstant, AllocError> {
        Ok(*self)
    }

    fn same(&self, other: &DataConstant) -> bool {
        match (self, other) {
            (DataConstant::Value(a), DataConstant::Value(b)) => a == b,
            (DataConstant::Named(a), DataConstant::Named(b)) => a == b,
            _ => false,
        }
    }
}

impl Syntax for DataValue {
    fn copy(&self, _alloc: Global) -> Result<DataValue, AllocError> {
        Ok(*self)
    }

    fn same(&self, other: &DataValue) -> bool {
        self.repeat.same(&other.repeat) && self.constant.same(&other.constant)
    }
}

impl Syntax for DataGroup {
    fn copy(&self, alloc: Global) -> Result<DataGroup, AllocError> {
        Ok(DataGroup {
            targets: self.targets.copy(alloc)?,
            values: self.values.copy(alloc)?,
        })
    }

    fn same(&self, other: &DataGroup) -> bool {
        self.targets.same(&other.targets) && self.values.same(&other.values)
    }
}
