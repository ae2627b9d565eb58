ghost use Rattle.std.specs.Prelude.{◌≡◌, is_some};
ghost use Rattle.sg_types.specs.Scopes as scopes;
ghost use Rattle.sg_types.specs.Expressions as exprs;
ghost use Rattle.sg_names.specs.Tables.{field_named};
ghost use Rattle.sg_types.specs.steps.Views.{known_view};

use crate::known::Known;
use crate::scope::Scope;
use crate::typed::{Form, TypedExpr};
use sg_ast::Name;
use sg_names::Constant;

impl<'a> Known<'a> {
    /// The constant of a name, where an earlier item declares it.
    pub fn earlier_constant(&self, name: &Name) -> Option<Constant>
        ensures { result ≡ scopes.earlier_constant (known_view self.now) name.now }
    {
        match self.names.constant_number(name) {
            Some(number) => {
                if number < self.constants {
                    self.names.constant(name)
                } else {
                    None
                }
            }
            None => None,
        }
    }

    /// Whether a name is a local, a variable of a loop round it, or an earlier constant.
    pub fn is_taken(&self, scope: &Scope, name: &Name) -> bool
        ensures { result ≡ scopes.is_taken (known_view self.now) scope.now name.now }
    {
        scope.get(name).is_some() || self.earlier_constant(name).is_some()
    }

    /// What a plain name stands for, as an expression.
    pub fn name_expr(&self, scope: &Scope, name: &Name) -> Option<TypedExpr>
        ensures { result ≡ scopes.name_expr (known_view self.now) scope.now name.now }
    {
        match scope.get(name) {
            Some(local) => Some(TypedExpr {
                ty: local.ty,
                form: Form::Var(local.var),
            }),
            None => match self.earlier_constant(name) {
                Some(constant) => Some(TypedExpr {
                    ty: constant.ty,
                    form: Form::Constant(constant.word),
                }),
                None => None,
            },
        }
    }

    pub fn has_field(&self, field: &Name) -> bool
        ensures { result ≡ is_some (field_named self.now.names.now field.now) }
    {
        self.names.field(field).is_some()
    }

    /// Whether the layout of a field has this many axes.
    pub fn has_axes(&self, field: &Name, count: usize) -> bool
        ensures { result ≡ exprs.equals_some (exprs.field_axes self.now.names.now field.now) count }
    {
        match self.names.field(field) {
            Some(at) => self.names.axes(at.layout) as usize == count,
            None => false,
        }
    }
}
