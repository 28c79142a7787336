//! Each row of the table of instructions: taken in its shape, with its numbers at their ends, and refused with each
//! operand wrong in turn.

use crate::runs::{NAME, run};
use std::alloc::{AllocError, Global};
use std::test::Fail;

// Instructions that have the shape of their row, behind `ok`, and such as have not, behind `bad`.
const CASES: &str = "ok {label,5}; {label,0}; {label,4294967295}\n\
bad label; {label,5,0}; {label,a}; {label,-1}; {label,4294967296}\n\
ok {line,[]}; {line,1.5}; {line,foo}\n\
bad line; {line,[],0}\n\
ok {'%',{var_info,{x,0},[]}}; {'%',{var_info,{x,0},[{type,{t_float,0.0}}]}}; {'%',#Pid<0.1>}\n\
bad '%'; {'%',{var_info,{x,0},[]},0}\n\
ok {func_info,{atom,m},{atom,f},1}; {func_info,{atom,m},{atom,f},4294967295}\n\
bad func_info; {func_info,{atom,m},{atom,f},1,0}; {func_info,{atom,m},{atom,f}}; {func_info,m,{atom,f},1}\n\
bad {func_info,{x,0},{atom,f},1}; {func_info,nil,{atom,f},1}; {func_info,{integer,1},{atom,f},1}\n\
bad {func_info,{atom,m},f,1}; {func_info,{atom,m},{literal,f},1}; {func_info,{atom,m},{atom,f},-1}\n\
bad {func_info,{atom,m},{atom,f},4294967296}\n\
ok {move,{x,0},{x,1}}; {move,{y,1023},{x,1}}; {move,{x,1023},{x,1}}; {move,{integer,-9223372036854775808},{x,1}}\n\
ok {move,{atom,'A b'},{x,1}}; {move,nil,{x,1}}; {move,{literal,[1|#{a=>{}}]},{x,1}}; {move,{x,0},{y,1023}}\n\
bad move; {move,{x,0},{x,1},0}; {move,{x,0}}; {move,{x,1024},{x,1}}; {move,{z,0},{x,1}}; {move,{integer,a},{x,1}}\n\
bad {move,x,{x,1}}; {move,{literal},{x,1}}; {move,{x,0},{x,1024}}; {move,{x,0},{x,-1}}; {move,{x,0},{integer,1}}\n\
bad {move,{x,0},nil}\n\
ok {swap,{x,1},{x,1}}; {swap,{y,1023},{x,1}}; {swap,{x,1},{y,1023}}\n\
bad swap; {swap,{x,1},{x,1},0}; {swap,{x,1}}; {swap,{x,1024},{x,1}}; {swap,{x,-1},{x,1}}; {swap,{integer,1},{x,1}}\n\
bad {swap,nil,{x,1}}; {swap,{x,1},{x,1024}}; {swap,{x,1},{x,-1}}; {swap,{x,1},{integer,1}}; {swap,{x,1},nil}\n\
ok {allocate,0,1}; {allocate,1024,1}; {allocate,0,1024}\n\
bad allocate; {allocate,0,1,0}; {allocate,0}; {allocate,-1,1}; {allocate,1025,1}; {allocate,a,1}; {allocate,0,-1}\n\
bad {allocate,0,1025}; {allocate,0,a}\n\
ok {allocate_heap,0,0,1}; {allocate_heap,1024,0,1}; {allocate_heap,0,{alloc,[{words,1},{floats,0}]},1}\n\
ok {allocate_heap,0,4294967295,1}; {allocate_heap,0,0,1024}\n\
bad allocate_heap; {allocate_heap,0,0,1,0}; {allocate_heap,0,0}; {allocate_heap,-1,0,1}; {allocate_heap,1025,0,1}\n\
bad {allocate_heap,a,0,1}; {allocate_heap,0,-1,1}; {allocate_heap,0,foo,1}; {allocate_heap,0,{alloc},1}\n\
bad {allocate_heap,0,0,-1}; {allocate_heap,0,0,1025}; {allocate_heap,0,0,a}\n\
ok {test_heap,0,1}; {test_heap,{alloc,[{words,1},{floats,0}]},1}; {test_heap,4294967295,1}; {test_heap,0,1024}\n\
bad test_heap; {test_heap,0,1,0}; {test_heap,0}; {test_heap,-1,1}; {test_heap,foo,1}; {test_heap,{alloc},1}\n\
bad {test_heap,0,-1}; {test_heap,0,1025}; {test_heap,0,a}\n\
ok {deallocate,0}; {deallocate,1024}\n\
bad deallocate; {deallocate,0,0}; {deallocate,-1}; {deallocate,1025}; {deallocate,a}\n\
ok {trim,0,0}; {trim,1024,0}; {trim,0,1024}\n\
bad trim; {trim,0,0,0}; {trim,0}; {trim,-1,0}; {trim,1025,0}; {trim,a,0}; {trim,0,-1}; {trim,0,1025}; {trim,0,a}\n\
ok {init_yregs,{list,[{y,0},{x,1}]}}; {init_yregs,{list,[]}}\n\
bad init_yregs; {init_yregs,{list,[{y,0},{x,1}]},0}; {init_yregs,{list,[{integer,1}]}}; {init_yregs,[{y,0}]}\n\
bad {init_yregs,{list,foo}}\n\
ok {call,1,{f,2}}\n\
bad call; {call,1,{f,2},0}; {call,1}; {call,256,{f,2}}; {call,-1,{f,2}}; {call,a,{f,2}}; {call,1,{f,0}}\n\
bad {call,1,{f,a}}; {call,1,2}; {call,1,{f,4294967296}}\n\
ok {call_only,1,{f,2}}\n\
bad call_only; {call_only,1,{f,2},0}; {call_only,1}; {call_only,256,{f,2}}; {call_only,-1,{f,2}}\n\
bad {call_only,a,{f,2}}; {call_only,1,{f,0}}; {call_only,1,{f,a}}; {call_only,1,2}; {call_only,1,{f,4294967296}}\n\
ok {call_last,1,{f,2},0}; {call_last,1,{f,2},1024}\n\
bad call_last; {call_last,1,{f,2},0,0}; {call_last,1,{f,2}}; {call_last,256,{f,2},0}; {call_last,-1,{f,2},0}\n\
bad {call_last,a,{f,2},0}; {call_last,1,{f,0},0}; {call_last,1,{f,a},0}; {call_last,1,2,0}\n\
bad {call_last,1,{f,4294967296},0}; {call_last,1,{f,2},-1}; {call_last,1,{f,2},1025}; {call_last,1,{f,2},a}\n\
ok {call_ext,1,{extfunc,m,g,1}}\n\
bad call_ext; {call_ext,1,{extfunc,m,g,1},0}; {call_ext,1}; {call_ext,256,{extfunc,m,g,1}}\n\
bad {call_ext,-1,{extfunc,m,g,1}}; {call_ext,a,{extfunc,m,g,1}}; {call_ext,1,{extfunc,m,g}}\n\
bad {call_ext,1,{extfunc,m,1,1}}; {call_ext,1,{extfunc,'M',g,256}}; {call_ext,1,{f,2}}\n\
ok {call_ext_only,1,{extfunc,m,g,1}}\n\
bad call_ext_only; {call_ext_only,1,{extfunc,m,g,1},0}; {call_ext_only,1}; {call_ext_only,256,{extfunc,m,g,1}}\n\
bad {call_ext_only,-1,{extfunc,m,g,1}}; {call_ext_only,a,{extfunc,m,g,1}}; {call_ext_only,1,{extfunc,m,g}}\n\
bad {call_ext_only,1,{extfunc,m,1,1}}; {call_ext_only,1,{extfunc,'M',g,256}}; {call_ext_only,1,{f,2}}\n\
ok {call_ext_last,1,{extfunc,m,g,1},0}; {call_ext_last,1,{extfunc,m,g,1},1024}\n\
bad call_ext_last; {call_ext_last,1,{extfunc,m,g,1},0,0}; {call_ext_last,1,{extfunc,m,g,1}}\n\
bad {call_ext_last,256,{extfunc,m,g,1},0}; {call_ext_last,-1,{extfunc,m,g,1},0}\n\
bad {call_ext_last,a,{extfunc,m,g,1},0}; {call_ext_last,1,{extfunc,m,g},0}; {call_ext_last,1,{extfunc,m,1,1},0}\n\
bad {call_ext_last,1,{extfunc,'M',g,256},0}; {call_ext_last,1,{f,2},0}; {call_ext_last,1,{extfunc,m,g,1},-1}\n\
bad {call_ext_last,1,{extfunc,m,g,1},1025}; {call_ext_last,1,{extfunc,m,g,1},a}\n\
ok {call_fun,1}; {call_fun,255}\n\
bad call_fun; {call_fun,1,0}; {call_fun,256}; {call_fun,-1}\n\
ok {apply,1}; {apply,255}\n\
bad apply; {apply,1,0}; {apply,256}; {apply,-1}\n\
ok {apply_last,1,0}; {apply_last,255,0}; {apply_last,1,1024}\n\
bad apply_last; {apply_last,1,0,0}; {apply_last,1}; {apply_last,256,0}; {apply_last,-1,0}; {apply_last,1,-1}\n\
bad {apply_last,1,1025}; {apply_last,1,a}\n\
ok return\n\
bad {return}; {return,0}\n\
ok send\n\
bad {send}; {send,0}\n\
ok {make_fun2,{f,2},0,0,0}; {make_fun2,{f,2},foo,0,0}; {make_fun2,{f,2},[{a,1}],0,0}; {make_fun2,{f,2},0,foo,0}\n\
ok {make_fun2,{f,2},0,[{a,1}],0}; {make_fun2,{f,2},0,0,1}\n\
bad make_fun2; {make_fun2,{f,2},0,0,0,0}; {make_fun2,{f,2},0,0}; {make_fun2,{f,0},0,0,0}; {make_fun2,{f,a},0,0,0}\n\
bad {make_fun2,2,0,0,0}; {make_fun2,{f,4294967296},0,0,0}; {make_fun2,{f,2},0,0,-1}\n\
bad {make_fun2,{f,2},0,0,4294967296}\n\
ok {make_fun3,{f,2},0,0,{x,1},{list,[{x,0}]}}; {make_fun3,{f,2},foo,0,{x,1},{list,[{x,0}]}}\n\
ok {make_fun3,{f,2},[{a,1}],0,{x,1},{list,[{x,0}]}}; {make_fun3,{f,2},0,foo,{x,1},{list,[{x,0}]}}\n\
ok {make_fun3,{f,2},0,[{a,1}],{x,1},{list,[{x,0}]}}; {make_fun3,{f,2},0,0,{y,1023},{list,[{x,0}]}}\n\
ok {make_fun3,{f,2},0,0,{x,1},{list,[]}}\n\
bad make_fun3; {make_fun3,{f,2},0,0,{x,1},{list,[{x,0}]},0}; {make_fun3,{f,2},0,0,{x,1}}\n\
bad {make_fun3,{f,0},0,0,{x,1},{list,[{x,0}]}}; {make_fun3,{f,a},0,0,{x,1},{list,[{x,0}]}}\n\
bad {make_fun3,2,0,0,{x,1},{list,[{x,0}]}}; {make_fun3,{f,4294967296},0,0,{x,1},{list,[{x,0}]}}\n\
bad {make_fun3,{f,2},0,0,{x,1024},{list,[{x,0}]}}; {make_fun3,{f,2},0,0,{x,-1},{list,[{x,0}]}}\n\
bad {make_fun3,{f,2},0,0,{integer,1},{list,[{x,0}]}}; {make_fun3,{f,2},0,0,nil,{list,[{x,0}]}}\n\
bad {make_fun3,{f,2},0,0,{x,1},[]}; {make_fun3,{f,2},0,0,{x,1},{list,[{x,1024}]}}\n\
ok {bif,hd,{f,0},[{x,0}],{x,1}}; {bif,hd,{f,2},[{x,0}],{x,1}}; {bif,hd,{f,0},[{x,0}],{y,1023}}\n\
ok {bif,raise,{f,0},[{x,0},{x,1}],{x,1}}; {bif,raise,{f,0},[{x,0},{x,1}],{y,1023}}\n\
bad bif; {bif,hd,{f,0},[{x,0}],{x,1},0}; {bif,hd,{f,0},[{x,0}]}; {bif,hd,{f,-1},[{x,0}],{x,1}}\n\
bad {bif,hd,nil,[{x,0}],{x,1}}; {bif,hd,{f,0},[{x,1024}],{x,1}}; {bif,hd,{f,0},{list,[{x,0}]},{x,1}}\n\
bad {bif,hd,{f,0},[{x,0}],{x,1024}}; {bif,hd,{f,0},[{x,0}],{x,-1}}; {bif,hd,{f,0},[{x,0}],{integer,1}}\n\
bad {bif,hd,{f,0},[{x,0}],nil}; {bif,raise,{f,0},[{x,0},{x,1}],{x,1},0}; {bif,raise,{f,0},[{x,0},{x,1}]}\n\
bad {bif,raise,{f,2},[{x,0},{x,1}],{x,1}}; {bif,raise,{f,1},[{x,0},{x,1}],{x,1}}\n\
bad {bif,raise,{f,0},[{integer,1},{x,1}],{x,1}}; {bif,raise,{f,0},{list,[{x,0},{x,1}]},{x,1}}\n\
bad {bif,raise,{f,0},[{x,0},{x,1}],{x,1024}}; {bif,raise,{f,0},[{x,0},{x,1}],{x,-1}}\n\
bad {bif,raise,{f,0},[{x,0},{x,1}],{integer,1}}; {bif,raise,{f,0},[{x,0},{x,1}],nil}\n\
ok {gc_bif,'+',{f,0},1,[{x,0},{integer,1}],{x,1}}; {gc_bif,'+',{f,2},1,[{x,0},{integer,1}],{x,1}}\n\
ok {gc_bif,'+',{f,0},1024,[{x,0},{integer,1}],{x,1}}; {gc_bif,'+',{f,0},1,[{x,0},{integer,1}],{y,1023}}\n\
bad gc_bif; {gc_bif,'+',{f,0},1,[{x,0},{integer,1}],{x,1},0}; {gc_bif,'+',{f,0},1,[{x,0},{integer,1}]}\n\
bad {gc_bif,'+',{f,-1},1,[{x,0},{integer,1}],{x,1}}; {gc_bif,'+',nil,1,[{x,0},{integer,1}],{x,1}}\n\
bad {gc_bif,'+',{f,0},-1,[{x,0},{integer,1}],{x,1}}; {gc_bif,'+',{f,0},1025,[{x,0},{integer,1}],{x,1}}\n\
bad {gc_bif,'+',{f,0},a,[{x,0},{integer,1}],{x,1}}; {gc_bif,'+',{f,0},1,[{x,0},1],{x,1}}\n\
bad {gc_bif,'+',{f,0},1,foo,{x,1}}; {gc_bif,'+',{f,0},1,[{x,0},{integer,1}],{x,1024}}\n\
bad {gc_bif,'+',{f,0},1,[{x,0},{integer,1}],{x,-1}}; {gc_bif,'+',{f,0},1,[{x,0},{integer,1}],{integer,1}}\n\
bad {gc_bif,'+',{f,0},1,[{x,0},{integer,1}],nil}\n\
ok {put_list,{x,0},{x,0},{x,1}}; {put_list,{y,1023},{x,0},{x,1}}; {put_list,{x,1023},{x,0},{x,1}}\n\
ok {put_list,{integer,-9223372036854775808},{x,0},{x,1}}; {put_list,{atom,'A b'},{x,0},{x,1}}\n\
ok {put_list,nil,{x,0},{x,1}}; {put_list,{literal,[1|#{a=>{}}]},{x,0},{x,1}}; {put_list,{x,0},{y,1023},{x,1}}\n\
ok {put_list,{x,0},{x,1023},{x,1}}; {put_list,{x,0},{integer,-9223372036854775808},{x,1}}\n\
ok {put_list,{x,0},{atom,'A b'},{x,1}}; {put_list,{x,0},nil,{x,1}}; {put_list,{x,0},{literal,[1|#{a=>{}}]},{x,1}}\n\
ok {put_list,{x,0},{x,0},{y,1023}}\n\
bad put_list; {put_list,{x,0},{x,0},{x,1},0}; {put_list,{x,0},{x,0}}; {put_list,{x,1024},{x,0},{x,1}}\n\
bad {put_list,{z,0},{x,0},{x,1}}; {put_list,{integer,a},{x,0},{x,1}}; {put_list,x,{x,0},{x,1}}\n\
bad {put_list,{literal},{x,0},{x,1}}; {put_list,{x,0},{x,1024},{x,1}}; {put_list,{x,0},{z,0},{x,1}}\n\
bad {put_list,{x,0},{integer,a},{x,1}}; {put_list,{x,0},x,{x,1}}; {put_list,{x,0},{literal},{x,1}}\n\
bad {put_list,{x,0},{x,0},{x,1024}}; {put_list,{x,0},{x,0},{x,-1}}; {put_list,{x,0},{x,0},{integer,1}}\n\
bad {put_list,{x,0},{x,0},nil}\n\
ok {put_tuple2,{x,1},{list,[{x,0}]}}; {put_tuple2,{y,1023},{list,[{x,0}]}}; {put_tuple2,{x,1},{list,[]}}\n\
ok {put_tuple2,{x,1},{list,\"\"}}\n\
bad put_tuple2; {put_tuple2,{x,1},{list,[{x,0}]},0}; {put_tuple2,{x,1}}; {put_tuple2,{x,1024},{list,[{x,0}]}}\n\
bad {put_tuple2,{x,-1},{list,[{x,0}]}}; {put_tuple2,{integer,1},{list,[{x,0}]}}; {put_tuple2,nil,{list,[{x,0}]}}\n\
bad {put_tuple2,{x,1},[]}; {put_tuple2,{x,1},{list,[0]}}; {put_tuple2,{x,1},{list,\"a\"}}\n\
ok {get_list,{x,1},{x,1},{x,1}}; {get_list,{y,1023},{x,1},{x,1}}; {get_list,{x,1},{y,1023},{x,1}}\n\
ok {get_list,{x,1},{x,1},{y,1023}}\n\
bad get_list; {get_list,{x,1},{x,1},{x,1},0}; {get_list,{x,1},{x,1}}; {get_list,{x,1024},{x,1},{x,1}}\n\
bad {get_list,{x,-1},{x,1},{x,1}}; {get_list,{integer,1},{x,1},{x,1}}; {get_list,nil,{x,1},{x,1}}\n\
bad {get_list,{x,1},{x,1024},{x,1}}; {get_list,{x,1},{x,-1},{x,1}}; {get_list,{x,1},{integer,1},{x,1}}\n\
bad {get_list,{x,1},nil,{x,1}}; {get_list,{x,1},{x,1},{x,1024}}; {get_list,{x,1},{x,1},{x,-1}}\n\
bad {get_list,{x,1},{x,1},{integer,1}}; {get_list,{x,1},{x,1},nil}\n\
ok {get_hd,{x,1},{x,1}}; {get_hd,{y,1023},{x,1}}; {get_hd,{x,1},{y,1023}}\n\
bad get_hd; {get_hd,{x,1},{x,1},0}; {get_hd,{x,1}}; {get_hd,{x,1024},{x,1}}; {get_hd,{x,-1},{x,1}}\n\
bad {get_hd,{integer,1},{x,1}}; {get_hd,nil,{x,1}}; {get_hd,{x,1},{x,1024}}; {get_hd,{x,1},{x,-1}}\n\
bad {get_hd,{x,1},{integer,1}}; {get_hd,{x,1},nil}\n\
ok {get_tl,{x,1},{x,1}}; {get_tl,{y,1023},{x,1}}; {get_tl,{x,1},{y,1023}}\n\
bad get_tl; {get_tl,{x,1},{x,1},0}; {get_tl,{x,1}}; {get_tl,{x,1024},{x,1}}; {get_tl,{x,-1},{x,1}}\n\
bad {get_tl,{integer,1},{x,1}}; {get_tl,nil,{x,1}}; {get_tl,{x,1},{x,1024}}; {get_tl,{x,1},{x,-1}}\n\
bad {get_tl,{x,1},{integer,1}}; {get_tl,{x,1},nil}\n\
ok {get_tuple_element,{x,1},0,{x,1}}; {get_tuple_element,{y,1023},0,{x,1}}\n\
ok {get_tuple_element,{x,1},4294967295,{x,1}}; {get_tuple_element,{x,1},0,{y,1023}}\n\
bad get_tuple_element; {get_tuple_element,{x,1},0,{x,1},0}; {get_tuple_element,{x,1},0}\n\
bad {get_tuple_element,{x,1024},0,{x,1}}; {get_tuple_element,{x,-1},0,{x,1}}\n\
bad {get_tuple_element,{integer,1},0,{x,1}}; {get_tuple_element,nil,0,{x,1}}; {get_tuple_element,{x,1},-1,{x,1}}\n\
bad {get_tuple_element,{x,1},4294967296,{x,1}}; {get_tuple_element,{x,1},a,{x,1}}\n\
bad {get_tuple_element,{x,1},0,{x,1024}}; {get_tuple_element,{x,1},0,{x,-1}}\n\
bad {get_tuple_element,{x,1},0,{integer,1}}; {get_tuple_element,{x,1},0,nil}\n\
ok {set_tuple_element,{x,0},{x,1},0}; {set_tuple_element,{y,1023},{x,1},0}; {set_tuple_element,{x,1023},{x,1},0}\n\
ok {set_tuple_element,{integer,-9223372036854775808},{x,1},0}; {set_tuple_element,{atom,'A b'},{x,1},0}\n\
ok {set_tuple_element,nil,{x,1},0}; {set_tuple_element,{literal,[1|#{a=>{}}]},{x,1},0}\n\
ok {set_tuple_element,{x,0},{y,1023},0}; {set_tuple_element,{x,0},{x,1},4294967295}\n\
bad set_tuple_element; {set_tuple_element,{x,0},{x,1},0,0}; {set_tuple_element,{x,0},{x,1}}\n\
bad {set_tuple_element,{x,1024},{x,1},0}; {set_tuple_element,{z,0},{x,1},0}\n\
bad {set_tuple_element,{integer,a},{x,1},0}; {set_tuple_element,x,{x,1},0}; {set_tuple_element,{literal},{x,1},0}\n\
bad {set_tuple_element,{x,0},{x,1024},0}; {set_tuple_element,{x,0},{x,-1},0}\n\
bad {set_tuple_element,{x,0},{integer,1},0}; {set_tuple_element,{x,0},nil,0}; {set_tuple_element,{x,0},{x,1},-1}\n\
bad {set_tuple_element,{x,0},{x,1},4294967296}; {set_tuple_element,{x,0},{x,1},a}\n\
ok {put_map_assoc,{f,0},{x,0},{x,1},1,{list,[{x,0},{atom,a}]}}\n\
ok {put_map_assoc,{f,2},{x,0},{x,1},1,{list,[{x,0},{atom,a}]}}\n\
ok {put_map_assoc,{f,0},{y,1023},{x,1},1,{list,[{x,0},{atom,a}]}}\n\
ok {put_map_assoc,{f,0},{x,1023},{x,1},1,{list,[{x,0},{atom,a}]}}\n\
ok {put_map_assoc,{f,0},{integer,-9223372036854775808},{x,1},1,{list,[{x,0},{atom,a}]}}\n\
ok {put_map_assoc,{f,0},{atom,'A b'},{x,1},1,{list,[{x,0},{atom,a}]}}\n\
ok {put_map_assoc,{f,0},nil,{x,1},1,{list,[{x,0},{atom,a}]}}\n\
ok {put_map_assoc,{f,0},{literal,[1|#{a=>{}}]},{x,1},1,{list,[{x,0},{atom,a}]}}\n\
ok {put_map_assoc,{f,0},{x,0},{y,1023},1,{list,[{x,0},{atom,a}]}}\n\
ok {put_map_assoc,{f,0},{x,0},{x,1},4294967295,{list,[{x,0},{atom,a}]}}\n\
ok {put_map_assoc,{f,0},{x,0},{x,1},1,{list,[]}}\n\
bad put_map_assoc; {put_map_assoc,{f,0},{x,0},{x,1},1,{list,[{x,0},{atom,a}]},0}\n\
bad {put_map_assoc,{f,0},{x,0},{x,1},1}; {put_map_assoc,{f,-1},{x,0},{x,1},1,{list,[{x,0},{atom,a}]}}\n\
bad {put_map_assoc,nil,{x,0},{x,1},1,{list,[{x,0},{atom,a}]}}\n\
bad {put_map_assoc,{f,0},{x,1024},{x,1},1,{list,[{x,0},{atom,a}]}}\n\
bad {put_map_assoc,{f,0},{z,0},{x,1},1,{list,[{x,0},{atom,a}]}}\n\
bad {put_map_assoc,{f,0},{integer,a},{x,1},1,{list,[{x,0},{atom,a}]}}\n\
bad {put_map_assoc,{f,0},x,{x,1},1,{list,[{x,0},{atom,a}]}}\n\
bad {put_map_assoc,{f,0},{literal},{x,1},1,{list,[{x,0},{atom,a}]}}\n\
bad {put_map_assoc,{f,0},{x,0},{x,1024},1,{list,[{x,0},{atom,a}]}}\n\
bad {put_map_assoc,{f,0},{x,0},{x,-1},1,{list,[{x,0},{atom,a}]}}\n\
bad {put_map_assoc,{f,0},{x,0},{integer,1},1,{list,[{x,0},{atom,a}]}}\n\
bad {put_map_assoc,{f,0},{x,0},nil,1,{list,[{x,0},{atom,a}]}}\n\
bad {put_map_assoc,{f,0},{x,0},{x,1},-1,{list,[{x,0},{atom,a}]}}\n\
bad {put_map_assoc,{f,0},{x,0},{x,1},4294967296,{list,[{x,0},{atom,a}]}}\n\
bad {put_map_assoc,{f,0},{x,0},{x,1},a,{list,[{x,0},{atom,a}]}}\n\
bad {put_map_assoc,{f,0},{x,0},{x,1},1,{list,[{x,0}]}}; {put_map_assoc,{f,0},{x,0},{x,1},1,{list,[{x,0},a]}}\n\
bad {put_map_assoc,{f,0},{x,0},{x,1},1,[]}\n\
ok {put_map_exact,{f,0},{x,0},{x,1},1,{list,[{x,0},{atom,a}]}}\n\
ok {put_map_exact,{f,2},{x,0},{x,1},1,{list,[{x,0},{atom,a}]}}\n\
ok {put_map_exact,{f,0},{y,1023},{x,1},1,{list,[{x,0},{atom,a}]}}\n\
ok {put_map_exact,{f,0},{x,1023},{x,1},1,{list,[{x,0},{atom,a}]}}\n\
ok {put_map_exact,{f,0},{integer,-9223372036854775808},{x,1},1,{list,[{x,0},{atom,a}]}}\n\
ok {put_map_exact,{f,0},{atom,'A b'},{x,1},1,{list,[{x,0},{atom,a}]}}\n\
ok {put_map_exact,{f,0},nil,{x,1},1,{list,[{x,0},{atom,a}]}}\n\
ok {put_map_exact,{f,0},{literal,[1|#{a=>{}}]},{x,1},1,{list,[{x,0},{atom,a}]}}\n\
ok {put_map_exact,{f,0},{x,0},{y,1023},1,{list,[{x,0},{atom,a}]}}\n\
ok {put_map_exact,{f,0},{x,0},{x,1},4294967295,{list,[{x,0},{atom,a}]}}\n\
ok {put_map_exact,{f,0},{x,0},{x,1},1,{list,[]}}\n\
bad put_map_exact; {put_map_exact,{f,0},{x,0},{x,1},1,{list,[{x,0},{atom,a}]},0}\n\
bad {put_map_exact,{f,0},{x,0},{x,1},1}; {put_map_exact,{f,-1},{x,0},{x,1},1,{list,[{x,0},{atom,a}]}}\n\
bad {put_map_exact,nil,{x,0},{x,1},1,{list,[{x,0},{atom,a}]}}\n\
bad {put_map_exact,{f,0},{x,1024},{x,1},1,{list,[{x,0},{atom,a}]}}\n\
bad {put_map_exact,{f,0},{z,0},{x,1},1,{list,[{x,0},{atom,a}]}}\n\
bad {put_map_exact,{f,0},{integer,a},{x,1},1,{list,[{x,0},{atom,a}]}}\n\
bad {put_map_exact,{f,0},x,{x,1},1,{list,[{x,0},{atom,a}]}}\n\
bad {put_map_exact,{f,0},{literal},{x,1},1,{list,[{x,0},{atom,a}]}}\n\
bad {put_map_exact,{f,0},{x,0},{x,1024},1,{list,[{x,0},{atom,a}]}}\n\
bad {put_map_exact,{f,0},{x,0},{x,-1},1,{list,[{x,0},{atom,a}]}}\n\
bad {put_map_exact,{f,0},{x,0},{integer,1},1,{list,[{x,0},{atom,a}]}}\n\
bad {put_map_exact,{f,0},{x,0},nil,1,{list,[{x,0},{atom,a}]}}\n\
bad {put_map_exact,{f,0},{x,0},{x,1},-1,{list,[{x,0},{atom,a}]}}\n\
bad {put_map_exact,{f,0},{x,0},{x,1},4294967296,{list,[{x,0},{atom,a}]}}\n\
bad {put_map_exact,{f,0},{x,0},{x,1},a,{list,[{x,0},{atom,a}]}}\n\
bad {put_map_exact,{f,0},{x,0},{x,1},1,{list,[{x,0}]}}; {put_map_exact,{f,0},{x,0},{x,1},1,{list,[{x,0},a]}}\n\
bad {put_map_exact,{f,0},{x,0},{x,1},1,[]}\n\
ok {get_map_elements,{f,2},{x,0},{list,[{x,0},{y,0}]}}; {get_map_elements,{f,2},{y,1023},{list,[{x,0},{y,0}]}}\n\
ok {get_map_elements,{f,2},{x,1023},{list,[{x,0},{y,0}]}}\n\
ok {get_map_elements,{f,2},{integer,-9223372036854775808},{list,[{x,0},{y,0}]}}\n\
ok {get_map_elements,{f,2},{atom,'A b'},{list,[{x,0},{y,0}]}}; {get_map_elements,{f,2},nil,{list,[{x,0},{y,0}]}}\n\
ok {get_map_elements,{f,2},{literal,[1|#{a=>{}}]},{list,[{x,0},{y,0}]}}; {get_map_elements,{f,2},{x,0},{list,[]}}\n\
bad get_map_elements; {get_map_elements,{f,2},{x,0},{list,[{x,0},{y,0}]},0}; {get_map_elements,{f,2},{x,0}}\n\
bad {get_map_elements,{f,0},{x,0},{list,[{x,0},{y,0}]}}; {get_map_elements,{f,a},{x,0},{list,[{x,0},{y,0}]}}\n\
bad {get_map_elements,2,{x,0},{list,[{x,0},{y,0}]}}; {get_map_elements,{f,4294967296},{x,0},{list,[{x,0},{y,0}]}}\n\
bad {get_map_elements,{f,2},{x,1024},{list,[{x,0},{y,0}]}}; {get_map_elements,{f,2},{z,0},{list,[{x,0},{y,0}]}}\n\
bad {get_map_elements,{f,2},{integer,a},{list,[{x,0},{y,0}]}}; {get_map_elements,{f,2},x,{list,[{x,0},{y,0}]}}\n\
bad {get_map_elements,{f,2},{literal},{list,[{x,0},{y,0}]}}\n\
bad {get_map_elements,{f,2},{x,0},{list,[{x,0},{integer,1}]}}; {get_map_elements,{f,2},{x,0},{list,[{x,0}]}}\n\
ok {jump,{f,2}}\n\
bad jump; {jump,{f,2},0}; {jump,{f,0}}; {jump,{f,a}}; {jump,2}; {jump,{f,4294967296}}\n\
ok {select_val,{x,0},{f,2},{list,[{atom,a},{f,2},{integer,1},{f,1}]}}\n\
ok {select_val,{y,1023},{f,2},{list,[{atom,a},{f,2},{integer,1},{f,1}]}}\n\
ok {select_val,{x,1023},{f,2},{list,[{atom,a},{f,2},{integer,1},{f,1}]}}\n\
ok {select_val,{integer,-9223372036854775808},{f,2},{list,[{atom,a},{f,2},{integer,1},{f,1}]}}\n\
ok {select_val,{atom,'A b'},{f,2},{list,[{atom,a},{f,2},{integer,1},{f,1}]}}\n\
ok {select_val,nil,{f,2},{list,[{atom,a},{f,2},{integer,1},{f,1}]}}\n\
ok {select_val,{literal,[1|#{a=>{}}]},{f,2},{list,[{atom,a},{f,2},{integer,1},{f,1}]}}\n\
ok {select_val,{x,0},{f,2},{list,[]}}\n\
bad select_val; {select_val,{x,0},{f,2},{list,[{atom,a},{f,2},{integer,1},{f,1}]},0}; {select_val,{x,0},{f,2}}\n\
bad {select_val,{x,1024},{f,2},{list,[{atom,a},{f,2},{integer,1},{f,1}]}}\n\
bad {select_val,{z,0},{f,2},{list,[{atom,a},{f,2},{integer,1},{f,1}]}}\n\
bad {select_val,{integer,a},{f,2},{list,[{atom,a},{f,2},{integer,1},{f,1}]}}\n\
bad {select_val,x,{f,2},{list,[{atom,a},{f,2},{integer,1},{f,1}]}}\n\
bad {select_val,{literal},{f,2},{list,[{atom,a},{f,2},{integer,1},{f,1}]}}\n\
bad {select_val,{x,0},{f,0},{list,[{atom,a},{f,2},{integer,1},{f,1}]}}\n\
bad {select_val,{x,0},{f,a},{list,[{atom,a},{f,2},{integer,1},{f,1}]}}\n\
bad {select_val,{x,0},2,{list,[{atom,a},{f,2},{integer,1},{f,1}]}}\n\
bad {select_val,{x,0},{f,4294967296},{list,[{atom,a},{f,2},{integer,1},{f,1}]}}\n\
bad {select_val,{x,0},{f,2},{list,[{x,0},{f,2}]}}; {select_val,{x,0},{f,2},{list,[nil,{f,2}]}}\n\
bad {select_val,{x,0},{f,2},{list,[{literal,1},{f,2}]}}; {select_val,{x,0},{f,2},{list,[{atom,a},{f,0}]}}\n\
bad {select_val,{x,0},{f,2},{list,[{atom,a}]}}\n\
ok {select_tuple_arity,{x,0},{f,2},{list,[2,{f,2}]}}; {select_tuple_arity,{y,1023},{f,2},{list,[2,{f,2}]}}\n\
ok {select_tuple_arity,{x,1023},{f,2},{list,[2,{f,2}]}}\n\
ok {select_tuple_arity,{integer,-9223372036854775808},{f,2},{list,[2,{f,2}]}}\n\
ok {select_tuple_arity,{atom,'A b'},{f,2},{list,[2,{f,2}]}}; {select_tuple_arity,nil,{f,2},{list,[2,{f,2}]}}\n\
ok {select_tuple_arity,{literal,[1|#{a=>{}}]},{f,2},{list,[2,{f,2}]}}; {select_tuple_arity,{x,0},{f,2},{list,[]}}\n\
ok {select_tuple_arity,{x,0},{f,2},{list,[4294967295,{f,2}]}}\n\
bad select_tuple_arity; {select_tuple_arity,{x,0},{f,2},{list,[2,{f,2}]},0}; {select_tuple_arity,{x,0},{f,2}}\n\
bad {select_tuple_arity,{x,1024},{f,2},{list,[2,{f,2}]}}; {select_tuple_arity,{z,0},{f,2},{list,[2,{f,2}]}}\n\
bad {select_tuple_arity,{integer,a},{f,2},{list,[2,{f,2}]}}; {select_tuple_arity,x,{f,2},{list,[2,{f,2}]}}\n\
bad {select_tuple_arity,{literal},{f,2},{list,[2,{f,2}]}}; {select_tuple_arity,{x,0},{f,0},{list,[2,{f,2}]}}\n\
bad {select_tuple_arity,{x,0},{f,a},{list,[2,{f,2}]}}; {select_tuple_arity,{x,0},2,{list,[2,{f,2}]}}\n\
bad {select_tuple_arity,{x,0},{f,4294967296},{list,[2,{f,2}]}}\n\
bad {select_tuple_arity,{x,0},{f,2},{list,[{integer,2},{f,2}]}}\n\
bad {select_tuple_arity,{x,0},{f,2},{list,[-1,{f,2}]}}; {select_tuple_arity,{x,0},{f,2},{list,[2,{f,0}]}}\n\
ok {test,is_eq,{f,2},[{x,0},nil]}; {test,is_atom,{f,2},[{x,0}]}; {test,test_arity,{f,2},[{x,0},2]}\n\
ok {test,test_arity,{f,2},[{x,0},4294967295]}; {test,is_function2,{f,2},[{x,0},{integer,1}]}\n\
ok {test,is_tagged_tuple,{f,2},[{x,0},2,{atom,a}]}; {test,has_map_fields,{f,2},{x,0},{list,[{atom,a}]}}\n\
ok {test,has_map_fields,{f,2},{y,1023},{list,[{atom,a}]}}; {test,has_map_fields,{f,2},{x,1023},{list,[{atom,a}]}}\n\
ok {test,has_map_fields,{f,2},{integer,-9223372036854775808},{list,[{atom,a}]}}\n\
ok {test,has_map_fields,{f,2},{atom,'A b'},{list,[{atom,a}]}}; {test,has_map_fields,{f,2},nil,{list,[{atom,a}]}}\n\
ok {test,has_map_fields,{f,2},{literal,[1|#{a=>{}}]},{list,[{atom,a}]}}\n\
ok {test,has_map_fields,{f,2},{x,0},{list,[]}}\n\
bad test; {test,is_eq,{f,2},[{x,0},nil],0}; {test,is_eq,{f,2}}; {test,is_eq,{f,0},[{x,0},nil]}\n\
bad {test,is_eq,{f,a},[{x,0},nil]}; {test,is_eq,2,[{x,0},nil]}; {test,is_eq,{f,4294967296},[{x,0},nil]}\n\
bad {test,is_eq,{f,2},[{x,0}]}; {test,is_eq,{f,2},{list,[{x,0},nil]}}; {test,is_atom,{f,2},[{x,0}],0}\n\
bad {test,is_atom,{f,2}}; {test,is_atom,{f,0},[{x,0}]}; {test,is_atom,{f,a},[{x,0}]}; {test,is_atom,2,[{x,0}]}\n\
bad {test,is_atom,{f,4294967296},[{x,0}]}; {test,is_atom,{f,2},[{x,0},{x,0}]}; {test,is_atom,{f,2},[]}\n\
bad {test,test_arity,{f,2},[{x,0},2],0}; {test,test_arity,{f,2}}; {test,test_arity,{f,0},[{x,0},2]}\n\
bad {test,test_arity,{f,a},[{x,0},2]}; {test,test_arity,2,[{x,0},2]}; {test,test_arity,{f,4294967296},[{x,0},2]}\n\
bad {test,test_arity,{f,2},[{x,0},{integer,2}]}; {test,test_arity,{f,2},[{x,0}]}\n\
bad {test,test_arity,{f,2},[{x,0},-1]}; {test,is_function2,{f,2},[{x,0},{integer,1}],0}; {test,is_function2,{f,2}}\n\
bad {test,is_function2,{f,0},[{x,0},{integer,1}]}; {test,is_function2,{f,a},[{x,0},{integer,1}]}\n\
bad {test,is_function2,2,[{x,0},{integer,1}]}; {test,is_function2,{f,4294967296},[{x,0},{integer,1}]}\n\
bad {test,is_function2,{f,2},[{x,0},1]}; {test,is_function2,{f,2},[{x,0}]}\n\
bad {test,is_tagged_tuple,{f,2},[{x,0},2,{atom,a}],0}; {test,is_tagged_tuple,{f,2}}\n\
bad {test,is_tagged_tuple,{f,0},[{x,0},2,{atom,a}]}; {test,is_tagged_tuple,{f,a},[{x,0},2,{atom,a}]}\n\
bad {test,is_tagged_tuple,2,[{x,0},2,{atom,a}]}; {test,is_tagged_tuple,{f,4294967296},[{x,0},2,{atom,a}]}\n\
bad {test,is_tagged_tuple,{f,2},[{x,0},2,a]}; {test,is_tagged_tuple,{f,2},[{x,0},2,{x,0}]}\n\
bad {test,is_tagged_tuple,{f,2},[{x,0},{integer,2},{atom,a}]}\n\
bad {test,has_map_fields,{f,2},{x,0},{list,[{atom,a}]},0}; {test,has_map_fields,{f,2},{x,0}}\n\
bad {test,has_map_fields,{f,0},{x,0},{list,[{atom,a}]}}; {test,has_map_fields,{f,a},{x,0},{list,[{atom,a}]}}\n\
bad {test,has_map_fields,2,{x,0},{list,[{atom,a}]}}; {test,has_map_fields,{f,4294967296},{x,0},{list,[{atom,a}]}}\n\
bad {test,has_map_fields,{f,2},{x,1024},{list,[{atom,a}]}}; {test,has_map_fields,{f,2},{z,0},{list,[{atom,a}]}}\n\
bad {test,has_map_fields,{f,2},{integer,a},{list,[{atom,a}]}}; {test,has_map_fields,{f,2},x,{list,[{atom,a}]}}\n\
bad {test,has_map_fields,{f,2},{literal},{list,[{atom,a}]}}; {test,has_map_fields,{f,2},{x,0},[{atom,a}]}\n\
bad {test,has_map_fields,{f,2},{x,0},{list,[a]}}\n\
ok {loop_rec,{f,2},{x,1}}; {loop_rec,{f,2},{y,1023}}\n\
bad loop_rec; {loop_rec,{f,2},{x,1},0}; {loop_rec,{f,2}}; {loop_rec,{f,0},{x,1}}; {loop_rec,{f,a},{x,1}}\n\
bad {loop_rec,2,{x,1}}; {loop_rec,{f,4294967296},{x,1}}; {loop_rec,{f,2},{x,1024}}; {loop_rec,{f,2},{x,-1}}\n\
bad {loop_rec,{f,2},{integer,1}}; {loop_rec,{f,2},nil}\n\
ok remove_message\n\
bad {remove_message}; {remove_message,0}\n\
ok timeout\n\
bad {timeout}; {timeout,0}\n\
ok {loop_rec_end,{f,2}}\n\
bad loop_rec_end; {loop_rec_end,{f,2},0}; {loop_rec_end,{f,0}}; {loop_rec_end,{f,a}}; {loop_rec_end,2}\n\
bad {loop_rec_end,{f,4294967296}}\n\
ok {wait,{f,2}}\n\
bad wait; {wait,{f,2},0}; {wait,{f,0}}; {wait,{f,a}}; {wait,2}; {wait,{f,4294967296}}\n\
ok {wait_timeout,{f,2},{x,0}}; {wait_timeout,{f,2},{y,1023}}; {wait_timeout,{f,2},{x,1023}}\n\
ok {wait_timeout,{f,2},{integer,-9223372036854775808}}; {wait_timeout,{f,2},{atom,'A b'}}\n\
ok {wait_timeout,{f,2},nil}; {wait_timeout,{f,2},{literal,[1|#{a=>{}}]}}\n\
bad wait_timeout; {wait_timeout,{f,2},{x,0},0}; {wait_timeout,{f,2}}; {wait_timeout,{f,0},{x,0}}\n\
bad {wait_timeout,{f,a},{x,0}}; {wait_timeout,2,{x,0}}; {wait_timeout,{f,4294967296},{x,0}}\n\
bad {wait_timeout,{f,2},{x,1024}}; {wait_timeout,{f,2},{z,0}}; {wait_timeout,{f,2},{integer,a}}\n\
bad {wait_timeout,{f,2},x}; {wait_timeout,{f,2},{literal}}\n\
ok {recv_marker_reserve,{x,1}}; {recv_marker_reserve,{y,1023}}\n\
bad recv_marker_reserve; {recv_marker_reserve,{x,1},0}; {recv_marker_reserve,{x,1024}}\n\
bad {recv_marker_reserve,{x,-1}}; {recv_marker_reserve,{integer,1}}; {recv_marker_reserve,nil}\n\
ok {recv_marker_bind,{x,1},{x,1}}; {recv_marker_bind,{y,1023},{x,1}}; {recv_marker_bind,{x,1},{y,1023}}\n\
bad recv_marker_bind; {recv_marker_bind,{x,1},{x,1},0}; {recv_marker_bind,{x,1}}\n\
bad {recv_marker_bind,{x,1024},{x,1}}; {recv_marker_bind,{x,-1},{x,1}}; {recv_marker_bind,{integer,1},{x,1}}\n\
bad {recv_marker_bind,nil,{x,1}}; {recv_marker_bind,{x,1},{x,1024}}; {recv_marker_bind,{x,1},{x,-1}}\n\
bad {recv_marker_bind,{x,1},{integer,1}}; {recv_marker_bind,{x,1},nil}\n\
ok {recv_marker_use,{x,1}}; {recv_marker_use,{y,1023}}\n\
bad recv_marker_use; {recv_marker_use,{x,1},0}; {recv_marker_use,{x,1024}}; {recv_marker_use,{x,-1}}\n\
bad {recv_marker_use,{integer,1}}; {recv_marker_use,nil}\n\
ok {recv_marker_clear,{x,1}}; {recv_marker_clear,{y,1023}}\n\
bad recv_marker_clear; {recv_marker_clear,{x,1},0}; {recv_marker_clear,{x,1024}}; {recv_marker_clear,{x,-1}}\n\
bad {recv_marker_clear,{integer,1}}; {recv_marker_clear,nil}\n\
ok {'try',{y,0},{f,2}}; {'try',{y,1023},{f,2}}\n\
bad 'try'; {'try',{y,0},{f,2},0}; {'try',{y,0}}; {'try',{x,0},{f,2}}; {'try',{y,1024},{f,2}}; {'try',{y,0},{f,0}}\n\
bad {'try',{y,0},{f,a}}; {'try',{y,0},2}; {'try',{y,0},{f,4294967296}}\n\
ok {'catch',{y,0},{f,2}}; {'catch',{y,1023},{f,2}}\n\
bad 'catch'; {'catch',{y,0},{f,2},0}; {'catch',{y,0}}; {'catch',{x,0},{f,2}}; {'catch',{y,1024},{f,2}}\n\
bad {'catch',{y,0},{f,0}}; {'catch',{y,0},{f,a}}; {'catch',{y,0},2}; {'catch',{y,0},{f,4294967296}}\n\
ok {try_end,{y,0}}; {try_end,{y,1023}}\n\
bad try_end; {try_end,{y,0},0}; {try_end,{x,0}}; {try_end,{y,1024}}\n\
ok {try_case,{y,0}}; {try_case,{y,1023}}\n\
bad try_case; {try_case,{y,0},0}; {try_case,{x,0}}; {try_case,{y,1024}}\n\
ok {catch_end,{y,0}}; {catch_end,{y,1023}}\n\
bad catch_end; {catch_end,{y,0},0}; {catch_end,{x,0}}; {catch_end,{y,1024}}\n\
ok {badmatch,{x,0}}; {badmatch,{y,1023}}; {badmatch,{x,1023}}; {badmatch,{integer,-9223372036854775808}}\n\
ok {badmatch,{atom,'A b'}}; {badmatch,nil}; {badmatch,{literal,[1|#{a=>{}}]}}\n\
bad badmatch; {badmatch,{x,0},0}; {badmatch,{x,1024}}; {badmatch,{z,0}}; {badmatch,{integer,a}}; {badmatch,x}\n\
bad {badmatch,{literal}}\n\
ok {case_end,{x,0}}; {case_end,{y,1023}}; {case_end,{x,1023}}; {case_end,{integer,-9223372036854775808}}\n\
ok {case_end,{atom,'A b'}}; {case_end,nil}; {case_end,{literal,[1|#{a=>{}}]}}\n\
bad case_end; {case_end,{x,0},0}; {case_end,{x,1024}}; {case_end,{z,0}}; {case_end,{integer,a}}; {case_end,x}\n\
bad {case_end,{literal}}\n\
ok {try_case_end,{x,0}}; {try_case_end,{y,1023}}; {try_case_end,{x,1023}}\n\
ok {try_case_end,{integer,-9223372036854775808}}; {try_case_end,{atom,'A b'}}; {try_case_end,nil}\n\
ok {try_case_end,{literal,[1|#{a=>{}}]}}\n\
bad try_case_end; {try_case_end,{x,0},0}; {try_case_end,{x,1024}}; {try_case_end,{z,0}}\n\
bad {try_case_end,{integer,a}}; {try_case_end,x}; {try_case_end,{literal}}\n\
ok if_end\n\
bad {if_end}; {if_end,0}\n\
ok raw_raise\n\
bad {raw_raise}; {raw_raise,0}\n\
ok build_stacktrace\n\
bad {build_stacktrace}; {build_stacktrace,0}\n";

const BEFORE: &str =
    "{module,m}.\n{exports,[]}.\n{attributes,[]}.\n{labels,3}.\n{function,f,1,2}.\n{label,1}.\n{func_info,{atom,m},{atom,f},1}.\n{label,2}.\n";

// Whether the program refuses a function with that instruction behind its entry label for the shape of it.
fn is_bad(alloc: Global, instruction: &str) -> Result<bool, AllocError> {
    let mut source = String::from_str(alloc, BEFORE)?;
    source.push_str(instruction)?;
    source.push_str(".\nreturn.\n")?;
    let words = ["compile", "o", NAME];
    let ran = run(alloc, &words, source.as_bytes(), Vec::new(alloc))?;
    Ok(ran.err.taken() == b"m.S: function 0, instruction 3: bad instruction\n".as_slice())
}

#[test]
fn takes_each_row_in_its_shape_alone(rt: HostRuntime) -> Result<(), Fail> {
    for line in CASES.lines() {
        let Some((verdict, instructions)) = line.split_once(' ') else {
            assert!(rt; false, "{line}");
            continue;
        };
        for instruction in instructions.split("; ") {
            let bad = is_bad(rt.alloc(), instruction)?;
            assert_eq!(rt; bad, verdict == "bad", "{instruction}");
        }
    }
    Ok(())
}
