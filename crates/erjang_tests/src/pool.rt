//! What the constants of modules weigh, worked by hand.

use asm_module::module_of;
use asm_terms::read_forms;
use slot_kinds::pool_weight;
use std::alloc::{AllocError, Global};
use std::test::Fail;

const HEAD: &str =
    "{module,m}. {exports,[{f,1}]}. {attributes,[]}. {labels,9}. {function,f,1,2}. {label,1}. {func_info,{atom,m},{atom,f},1}. {label,2}. ";

/// The code of f/1, with further functions in the second row, and the weight: 1,030 where it names nothing, since the atoms
/// of `func_info` do not count.
const BODIES: &str = r##"return. ==> 1030
return. {function,module_info,0,4}. {label,3}. {line,[]}. {func_info,{atom,m},{atom,module_info},0}. {label,4}. {move,{atom,m},{x,0}}. {call_ext_only,1,{extfunc,erlang,get_module_info,1}}. {function,module_info,1,6}. {label,5}. {line,[]}. {func_info,{atom,m},{atom,module_info},1}. {label,6}. {move,{x,0},{x,1}}. {move,{atom,m},{x,0}}. {call_ext_only,2,{extfunc,erlang,get_module_info,2}}. ==> 1054
{move,{literal,{a,1}},{x,0}}. {move,{literal,{a,1}},{x,1}}. return. ==> 1034
{move,{literal,[1|[2]]},{x,0}}. {move,{literal,[1,2]},{x,0}}. return. ==> 1034
{move,{literal,"a"},{x,0}}. {move,{literal,[97]},{x,0}}. return. ==> 1038
{move,{literal,#{a=>1,b=>2}},{x,0}}. {move,{literal,#{b=>2,a=>1}},{x,0}}. {move,{literal,#{a=>1,b=>2}},{x,0}}. return. ==> 1038
{move,{literal,{{a},b}},{x,0}}. {move,{literal,{{a,b}}},{x,0}}. {move,{literal,[a|b]},{x,0}}. {move,{literal,[a,b]},{x,0}}. return. ==> 1046
{move,{literal,fun m:f/1},{x,0}}. {move,{literal,fun m:f/2},{x,0}}. {move,{literal,fun m:f/1},{x,0}}. return. ==> 1038
{move,{integer,1},{x,0}}. {move,{literal,1},{x,0}}. {move,{atom,a},{x,0}}. {move,{literal,a},{x,0}}. {move,{integer,1},{x,0}}. return. ==> 1046
{move,nil,{x,1}}. {put_list,nil,nil,{x,0}}. {init_yregs,{list,[{y,0}]}}. return. ==> 1034
{move,nil,{x,1}}. {move,{literal,[]},{x,0}}. return. ==> 1038
{move,{atom,m},{x,0}}. return. ==> 1034
{move,{integer,2},{x,1}}. {test,test_arity,{f,1},[{x,0},2]}. return. ==> 1038
{test,is_tagged_tuple,{f,1},[{x,0},3,{atom,ok}]}. {move,{atom,ok},{x,0}}. return. ==> 1038
{get_tuple_element,{x,0},2,{x,1}}. {set_tuple_element,{x,0},{x,1},2}. {test,test_arity,{f,1},[{x,0},2]}. {test,is_tagged_tuple,{f,1},[{x,0},2,{atom,a}]}. {select_tuple_arity,{x,0},{f,1},{list,[2,{f,1},4,{f,1}]}}. ==> 1042
{select_val,{x,0},{f,1},{list,[{atom,a},{f,2},{integer,7},{f,2},{atom,b},{f,2}]}}. ==> 1042
{put_map_assoc,{f,0},{x,0},{x,0},1,{list,[{atom,k},{integer,1},{x,0},{integer,2}]}}. {get_map_elements,{f,1},{x,0},{list,[{atom,k},{x,1},{atom,l},{x,2}]}}. {test,has_map_fields,{f,1},{x,0},{list,[{atom,n},{atom,l}]}}. return. ==> 1050
{label,3}. {wait_timeout,{f,3},{integer,1}}. {badmatch,{integer,2}}. ==> 1038
{call_ext_only,1,{extfunc,m,g,1}}. {call_ext_only,1,{extfunc,m,g,1}}. {call_ext_only,2,{extfunc,m,g,2}}. ==> 1038
{call_ext,1,{extfunc,erlang,abs,1}}. {gc_bif,abs,{f,0},1,[{x,0}],{x,0}}. return. ==> 1034"##;

// What the constants of the module weigh whose first function has this code.
fn told(alloc: Global, body: &str) -> Result<String, AllocError> {
    let mut source = String::from_str(alloc, HEAD)?;
    source.push_str(body)?;
    let Ok(forms) = read_forms(alloc, source.as_bytes()) else {
        return String::from_str(alloc, "no forms");
    };
    let Ok(module) = module_of(alloc, forms.as_slice()) else {
        return String::from_str(alloc, "no module");
    };
    format!(in alloc; "{}", pool_weight(alloc, &module)?)
}

#[test]
fn weighs_constants(rt: HostRuntime) -> Result<(), Fail> {
    let alloc = rt.alloc();
    for row in BODIES.lines() {
        let (body, answer) = row.split_once(" ==> ").unwrap_or((row, ""));
        let told = told(alloc, body)?;
        assert_eq!(rt; told.as_str(), answer, "{row}");
    }
    Ok(())
}
