// The rows of child places, one for each kind, which kinds may stand at a place, and what is no name where one is due. A place is a number: 0 is
// none, 1 to 0x1A one record, 0x20 more a seq of it, 0x40 more an Option of it. leaf_at and place_of name the places of one record.
#![tactic(auto)]

ghost use Rattle.std.specs.Prelude.{◌≡◌, cond, ℕ, ◌<◌, ◌≤◌, get_or, eqb, ltb};
ghost use Rattle.records.specs.Kinds.{stands};
ghost use Rattle.records.specs.Reading.{nameless};
ghost use Rattle.rows.specs.Codes.{place_of, table as codes_table};

// A row for each kind from 0 to 0x86: a byte for each field's place, the first field's the lowest.
const ROWS: [u64; 135] = [
    0, // 0x00, none
    0, // 0x01 Text
    0, // 0x02 List
    0, // 0x03 Kept
    0, // 0x04, none
    0, // 0x05, none
    0, // 0x06, none
    0, // 0x07, none
    0, // 0x08, none
    0, // 0x09, none
    0, // 0x0A, none
    0, // 0x0B, none
    0, // 0x0C, none
    0, // 0x0D, none
    0, // 0x0E, none
    0, // 0x0F, none
    0, // 0x10 Global
    0, // 0x11 Crate
    0, // 0x12 Self
    0x0304, // 0x13 PMemberSelect(base, name)
    0, // 0x14, none
    0, // 0x15, none
    0, // 0x16, none
    0, // 0x17, none
    0, // 0x18, none
    0, // 0x19, none
    0, // 0x1A, none
    0, // 0x1B, none
    0, // 0x1C, none
    0, // 0x1D, none
    0, // 0x1E, none
    0, // 0x1F, none
    0, // 0x20 U8
    0, // 0x21 U16
    0, // 0x22 U32
    0, // 0x23 U64
    0, // 0x24 U128
    0, // 0x25 I8
    0, // 0x26 I16
    0, // 0x27 I32
    0, // 0x28 I64
    0, // 0x29 I128
    0, // 0x2A USIZE
    0, // 0x2B Bool
    0x01, // 0x2C TIdentifier(name)
    0x04, // 0x2D TypeFromPath(path)
    0x2505, // 0x2E TypeApp(baseName, arguments)
    0x05, // 0x2F Borrowed(underlying)
    0x05, // 0x30 BorrowedMut(underlying)
    0x05, // 0x31 ImplType(underlying)
    0x05, // 0x32 DynType(underlying)
    0x25, // 0x33 TupleType(arguments)
    0x0525, // 0x34 FnType(arguments, returnType)
    0x0505, // 0x35 IntersectionType(left, right)
    0x4105, // 0x36 Array(underlying, size)
    0x0505, // 0x37 TSynonym(display, base)
    0x020205, // 0x38 TMetaData(display, copySemantics, overflow)
    0, // 0x39, none
    0, // 0x3A, none
    0, // 0x3B, none
    0, // 0x3C, none
    0, // 0x3D, none
    0, // 0x3E, none
    0, // 0x3F, none
    0x01, // 0x40 RawExpr(content)
    0x05, // 0x41 ExprFromType(tpe)
    0x01, // 0x42 Identifier(name)
    0x3806, // 0x43 Match(matchee, cases)
    0x0606, // 0x44 StmtExpr(stmt, rhs)
    0x06, // 0x45 Block(underlying)
    0x3906, // 0x46 StructBuild(underlying, assignments)
    0x26, // 0x47 Tuple(arguments)
    0x020601, // 0x48 UnaryOp(op1, underlying, format)
    0x02060601, // 0x49 BinaryOp(op2, left, right, format2)
    0x0506, // 0x4A TypeAscription(left, tpe)
    0x0505, // 0x4B TraitCast(leftTpe, tpe)
    0x01, // 0x4C LiteralInt(value)
    0x02, // 0x4D LiteralBool(bvalue)
    0x020201, // 0x4E LiteralString(value, binary, verbatim)
    0x46450102, // 0x4F DeclareVar(declareType, name, optType, optRhs)
    0x0602, // 0x50 Assign(names, rhs)
    0x060606, // 0x51 IfExpr(cond, thn, els)
    0x0646, // 0x52 Loop(optCond, underlying)
    0x060601, // 0x53 For(name, range, body)
    0x0601, // 0x54 Labelled(lbl, underlying)
    0x41, // 0x55 Break(optLbl)
    0x41, // 0x56 Continue(optLbl)
    0x46, // 0x57 Return(optExpr)
    0x2506, // 0x58 CallType(obj, typeArguments)
    0x2606, // 0x59 Call(obj, arguments)
    0x0106, // 0x5A Select(obj, name)
    0x0606, // 0x5B SelectIndex(obj, range)
    0x04, // 0x5C ExprFromPath(path)
    0x0106, // 0x5D FunctionSelect(obj, name)
    0x064535, // 0x5E Lambda(params, retType, body)
    0, // 0x5F, none
    0x28010201, // 0x60 Mod(docString, attributes, name, body)
    0x01, // 0x61 ExternMod(name)
    0x07, // 0x62 ModDecl(mod)
    0x09, // 0x63 StructDecl(struct)
    0x0A, // 0x64 TypeDecl(tpe)
    0x0B, // 0x65 ConstDecl(c)
    0x0C, // 0x66 EnumDecl(enum)
    0x11, // 0x67 ImplDecl(impl)
    0x12, // 0x68 TraitDecl(tr)
    0x13, // 0x69 TopFnDecl(fn)
    0x17, // 0x6A UseDecl(use)
    0, // 0x6B, none
    0, // 0x6C, none
    0, // 0x6D, none
    0, // 0x6E, none
    0, // 0x6F, none
    0x0E36010201, // 0x70 Struct(docString, attributes, name, typeParams, fields)
    0x0536010201, // 0x71 TypeSynonym(docString, attributes, name, typeParams, tpe)
    0x0605010201, // 0x72 Constant(docString, attributes, name, tpe, value)
    0x2D36010201, // 0x73 Enum(docString, attributes, name, typeParams, variants)
    0x0E0101, // 0x74 EnumCase(docString, name, fields)
    0x2F, // 0x75 NamedFields(fields)
    0x30, // 0x76 NamelessFields(types)
    0x1502, // 0x77 Field(visibility, formal)
    0x0502, // 0x78 NamelessField(visibility, tpe)
    0x3A050536, // 0x79 ImplFor(typeParams, tpe, forType, body)
    0x3A0536, // 0x7A Impl(typeParams, tpe, body)
    0x3A2505360201, // 0x7B Trait(docString, attributes, typeParams, tpe, parents, body)
    0x14020201, // 0x7C TopFn(docString, attributes, visibility, fn)
    0x4645353601, // 0x7D Fn(name, typeParams, formals, returnType, body)
    0x0501, // 0x7E Formal(name, tpe)
    0x2501, // 0x7F TypeParamDecl(name, constraints)
    0x0402, // 0x80 Use(visibility, path)
    0x0602, // 0x81 MatchCase(pattern, rhs)
    0x0601, // 0x82 AssignIdentifier(identifier, rhs)
    0x01, // 0x83 RawImplMember(content)
    0x14020201, // 0x84 FnDecl(docString, attributes, pub, fun)
    0x0501, // 0x85 TypeDeclMember(name, rhs)
    0x06, // 0x86 ImplMemberMacro(expr)
];

// The rows, for a walk to make once and lend on: a constant that is read in place is written out anew each time.
pub fn table() -> [u64; 135]
    ensures { result ≡ codes_table }
{
    ROWS
}

// The row of kind k, by a table of rows; 0, which names no place, past its end.
pub fn row_at(t: &[u64; 135], k: usize) -> u64
    ensures { result ≡ cond (ltb k 135) (get_or t.now k 0) 0 }
{
    t.get(k).copied().unwrap_or(0)
}

// The one kind that may stand at a place under 4.
fn leaf_at(p: usize) -> usize
    requires { p < 4 }
    ensures { (k : ℕ) → eqb k result ≡ stands (place_of p) k }
{
    match p {
        0x00 => 0, // none
        0x02 => 0x03, // Kept
        _ => 0x01, // Text, also that of a PMemberSelect
    }
}

// The one place from 4 to 0x1A at which a kind may stand; 0 where there is none. The kinds lie in runs, of one place or of places that rise with
// the kind. An arm for each kind of the latter would be compiled to a table.
fn place_of(k: usize) -> usize
    ensures { (p : ℕ) → 4 ≤ p → p < 27 → eqb p result ≡ stands (place_of p) k }
{
    match k {
        0x10..=0x13 => 0x04, // Path
        0x20..=0x38 => 0x05, // Type
        0x40..=0x5E => 0x06, // Expr
        0x60..=0x61 => 0x07, // Mod or ExternMod
        0x62..=0x6A => 0x08, // ModDecl
        // 0x09 Struct, 0x0A TypeSynonym, 0x0B Constant, 0x0C Enum, 0x0D EnumCase, 0x0E Fields
        0x70..=0x75 => k - 0x67,
        // 0x0E Fields again, 0x0F Field, 0x10 NamelessField, 0x11 Impl
        0x76..=0x79 => k - 0x68,
        // 0x11 Impl again, 0x12 Trait, 0x13 TopFn, 0x14 Fn, 0x15 Formal, 0x16 TypeParamDecl, 0x17 Use, 0x18 MatchCase,
        // 0x19 AssignIdentifier, 0x1A ImplMember
        0x7A..=0x83 => k - 0x69,
        0x84..=0x86 => 0x1A, // ImplMember again
        _ => 0,
    }
}

// Whether a kind may stand at a place.
pub fn may_stand(p: usize, k: usize) -> bool
    ensures { result ≡ stands (place_of p) k }
{
    match p {
        0x00..=0x03 => k == leaf_at(p),
        0x04..=0x1A => p == place_of(k),
        0x1B..=0x1F => k == 0, // none
        _ => k == 0x02, // a seq or an Option
    }
}

// Whether the content of a record of kind k at place p is no name where one is due: a PMemberSelect's Text that is empty or the one byte '!'.
pub fn is_nameless(p: usize, k: usize, content: &[u8]) -> bool
    ensures { result ≡ nameless (place_of p) k content.now }
{
    matches!((p, k, content), (0x03, 0x01, [] | [b'!']))
}
